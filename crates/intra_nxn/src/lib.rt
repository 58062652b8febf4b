// Intra 4x4 and 8x8 luma prediction (H.264 clauses 8.3.1.2 and 8.3.2.2), once over the side N. What takes or gives the run of
// neighbours or a line is compiled where it is called, so that these stay in registers.
#![tactic(auto)]

mod block; // a block of side N
mod filter; // 8.3.2.2.1: the filter of an 8x8 block's neighbours
pub mod intra_4x4; // 8.3.1.2: intra 4x4 luma prediction
pub mod intra_8x8; // 8.3.2.2: intra 8x8 luma prediction
mod lines; // the lines of which the rows of a block are pieces
mod rows; // the rows
mod run; // the run of a block's neighbours
