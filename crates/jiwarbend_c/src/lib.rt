// The library for C and Rust: every function of jiwarbend under its name in C (include/jiwarbend.h). Each export only calls it, and states its clauses again.
// Numbers, lists with their lengths and places for what a call tells are the C interface.
#![tactic(auto)]

pub mod intra; // intra prediction
pub mod intra_plane; // intra prediction from a plane
pub mod pictures; // whole pictures, macroblock by macroblock
pub mod reconstruct; // the inverse transforms and clipped sums
pub mod schedule; // what may start now, and whether an order is one
pub mod small; // clip_u8, chroma_qp, numbers of coefficients, permitted modes, what modes read
pub mod two_halves; // a macroblock call in two halves
