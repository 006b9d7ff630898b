// The ground floor: sums that stop at their ends, the sharing of a leftover, and the check sum.
#![tactic(auto)]

pub mod fold;
pub mod growth;
pub mod scalar;
