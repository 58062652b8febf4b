// The turn list: which macroblocks may start now, for cores that look for work.
#![tactic(auto)]

pub mod rows; // how far each row is done from the left
pub mod turn; // what may start now
