// The residual and what becomes of it (H.264 clause 8.5): the 4x4 inverse transform, and clipped sums.
#![tactic(auto)]

pub mod inverse; // 8.5.12.2: the 4x4 inverse transform
mod passes; // rows, then columns
pub mod reconstruct; // 8.5.1 and 8.5.14: prediction and residual, added and clipped
mod rows; // the rows of a block
mod rounding; // the last step of a transform
pub mod blocks; // the residuals of a list, by either transform
