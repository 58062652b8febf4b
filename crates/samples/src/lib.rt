// Intra prediction of whole macroblocks (H.264 clauses 8.3.3 and 8.3.4), on blocks and on lent buffers. What is marked to be inlined is compiled where its
// side, its stride and its marks are constants: a plane prediction takes four times as long without.
#![tactic(auto)]

pub mod intra_16x16; // 8.3.3: intra 16x16 luma prediction
pub mod intra_chroma; // 8.3.4: intra chroma prediction
pub mod intra_plane; // 8.3.3 and 8.3.4 from a plane into a lent prediction
mod line; // lines of samples
mod plane_mode; // 8.3.3.4 and 8.3.4.4: plane prediction
mod whole; // what 16x16 luma and 8x8 chroma have in common
