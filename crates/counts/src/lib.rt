// How many literals of a rule must be true: the variables in the order of their coefficients, and the walk along it that
// takes the greatest first.
#![tactic(auto)]

pub mod count;
pub mod order;
