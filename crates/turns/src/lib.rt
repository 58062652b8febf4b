// What comes of a turn: whoever takes its macroblocks, in whatever order, meets no refusal and leaves the same picture: definitions and laws only.
#![tactic(auto)]
