// A block turned on its side: which luma modes then predict the transposed block, and what that says of the calls: definitions and laws only.
#![tactic(auto)]
