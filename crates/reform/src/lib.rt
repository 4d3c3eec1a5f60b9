// Reformulating a price by a count rule.
//
// A price is a constant and weights. Where at least so many literals of a set are true, and each weighs at least so much,
// that much of each is moved: the count's share to the constant, the rest to fresh variables that say how many more are
// true. The rules that tie the fresh variables are read off one by one. specs/Reforming.antt says what comes of it, and the
// promise is a record of the crate reform_laws.
#![tactic(auto)]

pub mod kinds;
pub mod price;
pub mod rule;
