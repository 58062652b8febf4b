// A macroblock call in two halves, compute and commit, and what comes of several workers that make them: definitions and laws only.
#![tactic(auto)]
