// The plain engine: it goes through the markings one by one, in their order.
//
// One step gives the next variable 0 or, where a rule or an assumed literal is broken, turns the last 0 to 1 and clears the
// marks after it. Where nothing is broken and every variable is marked, the marks are the answer; where something is broken
// and no 0 is left, no marking meets the question, and the answer is the clause of all assumed literals' complements.
#![tactic(auto)]

pub mod calls;
pub mod moves;
pub mod search;
pub mod state;
pub mod walk;
