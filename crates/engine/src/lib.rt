// Holders of rules and engines: what everything that plans is proved against.
//
// A holder means a number of variables and a list of rules (`Held`); an engine means, besides, the question that is open and
// how many steps are left for it (`Question`). The traits say of every call which of these it changes, and that it changes
// nothing more. specs/Held.antt and specs/Questions.antt have the words.
#![tactic(auto)]

pub mod answer;
pub mod asked;
pub mod holder;
