// Checks the order in which another scheduler sends a picture's macroblocks, from the picture's size and its slice map alone.
#![tactic(auto)]

pub mod check; // the calls
mod early; // who comes before a neighbour
mod places; // where in the list each macroblock comes
