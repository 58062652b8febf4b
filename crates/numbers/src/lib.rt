// Signed numbers that are looked at before they are computed with: how far they reach, and whether they lie in the range of coefficients and residuals.
#![tactic(auto)]

pub mod range; // the range of coefficients and residuals
pub mod reach; // how far numbers reach
