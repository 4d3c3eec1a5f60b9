// What follows from a rule: the laws of weakening, of division and of forced literals. The definitions are in specs/; each
// contract below is a theorem about them.
#![tactic(auto)]

ghost use Rattle.derive.specs.Derive.{MarksRefute, ForcesLiteral, Weakening, Division, WorkedDivision};

// A rule that marks break stays broken, and unmet, whatever else is marked.
#[tactic(auto, using(crate::proofs::Marks::marks_refute))]
pub fn broken_stays_broken()
    ensures { MarksRefute }
{}

// A literal without which the degree is out of reach is true wherever the rule is met.
#[tactic(auto, using(crate::proofs::Marks::forces_literal))]
pub fn forced_is_true()
    ensures { ForcesLiteral }
{}

// A rule without some of its terms, its degree less their coefficients, follows from it.
#[tactic(auto, using(crate::proofs::Derive::weakening))]
pub fn weakening_follows()
    ensures { Weakening }
{}

// A rule divided by a number, every coefficient and the degree rounded up, follows from it.
#[tactic(auto, using(crate::proofs::Derive::division))]
pub fn division_follows()
    ensures { Division }
{}

// 3 x1 + 2 x2 >= 4 divided by 3 is x1 + x2 >= 2.
#[tactic(auto, using(crate::proofs::Derive::worked_division))]
pub fn division_worked()
    ensures { WorkedDivision }
{}
