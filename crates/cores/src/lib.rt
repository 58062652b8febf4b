// A macroblock call in two halves, so that several cores can work on one picture: compute reads what is lent and puts the macroblock's samples into a
// block, commit puts such a block into the planes and marks the macroblock.
#![tactic(auto)]

pub mod commit;
pub mod compute;
mod around; // the samples that touch a macroblock
mod copy; // rectangles of samples, copied
