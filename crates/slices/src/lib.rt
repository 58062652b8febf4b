// What one slice can do to the others: nothing, but for the progress record. Definitions and laws only.
#![tactic(auto)]
