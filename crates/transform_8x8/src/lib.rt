// The transformation of residual 8x8 blocks (clause 8.5.13.2).
#![tactic(auto)]

pub mod inverse; // the calls: what they answer and put
mod passes; // rows, then columns
mod rows; // the rows of a block, and rounding
mod steps; // the three steps of a row and of a column
