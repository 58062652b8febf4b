// Every routine as a function on numbers and slices of any length, with its whole contract. jiwarbend_c hands each to C and Rust, so that each takes what C
// has: numbers, marks and lists one by one, and one function for each name in C.
#![tactic(auto)]

pub mod intra; // intra prediction
pub mod intra_plane; // intra prediction from a plane
pub mod pictures; // whole pictures, macroblock by macroblock
pub mod reconstruct; // the inverse transforms and clipped sums
pub mod schedule; // what may start now, and whether an order is one
mod sides; // C's marks as sides
pub mod small; // clip_u8, chroma_qp, numbers of coefficients, permitted modes, what modes read
pub mod two_halves; // a macroblock call in two halves
