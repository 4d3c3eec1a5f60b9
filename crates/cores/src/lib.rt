// The core of a rule: what is left of it when every literal that is not assumed false is weakened.
//
// specs/Cores.antt says what the core of a rule under assumed literals is, and when it cannot be met.
#![tactic(auto)]

pub mod core_of;
