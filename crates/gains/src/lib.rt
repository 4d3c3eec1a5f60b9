// The count rule of greatest gain that follows from a core.
//
// A count rule says that at least so many of its literals are true, and gains that number times the smallest weight of its
// literals. The rounds weaken all literals of smallest weight, again and again, until nothing is counted any more; the first
// round of greatest gain is kept. specs/Gains.antt says what is promised of it: no count rule over any of the core's literals
// that follows from the core gains more.
#![tactic(auto)]

pub mod best;
pub mod kinds;
pub mod rounds;
