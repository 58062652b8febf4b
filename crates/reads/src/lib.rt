// Which groups of samples beside a block a prediction mode reads (H.264 clause 8.3).
#![tactic(auto)]

pub mod groups; // the sets of groups of each predictor
