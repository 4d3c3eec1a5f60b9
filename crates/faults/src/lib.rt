// Every way in which a text, a sheet or a call is refused.
//
// Each layer has an enum of its own. A fault of a lower layer travels up whole, inside the upper one's `Text` or
// `Sheet` case, by `From` and `?`. What a screen shows of a fault is its `Refusal`, made by `From` too: the layer that found
// it, the fault's number and its place. specs/Refusals.antt says by case which three numbers each fault stands for, and
// specs/Words.antt what it says in words.
#![tactic(auto)]

pub mod fault;
mod numbers;
mod travel;
mod words;
