// Cores as text: the lines of a list of cores, and rows, literals and rules as they are shown.
#![tactic(auto)]

pub mod line;
pub mod show;
