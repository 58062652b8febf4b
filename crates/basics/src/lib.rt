// What the clauses on residuals and on prediction share (H.264 clauses 8.3 and 8.5), and the numbers that go with coefficients.
#![tactic(auto)]

pub mod beside; // 8.3: what stands beside a block
pub mod clip; // 5.7: Clip1
pub mod marks; // 8.3: the sides of a block, and the modes that they permit
pub mod mean; // 8.3: means of neighbours
pub mod modes; // 8.3: the prediction modes by name
pub mod nnz; // 9.2.1 and 6.4.3: numbers of coefficients
pub mod qp; // 8.5.8: chroma quantisation parameters
