// Reformulating a price by a count rule: what the fresh variables and the new rules promise. The definitions are in specs/;
// the contract below is a theorem about them.
#![tactic(auto)]

ghost use Rattle.reform_laws.specs.Reform.{Reformulating};

// Every marking that meets the count rule has exactly one setting of the fresh variables, at the same price.
pub fn reformulating_keeps_the_price()
    ensures { Reformulating }
{}
