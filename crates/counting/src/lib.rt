// How many literals of a core must be true: the least number that reaches its degree, and the count rules that follow. The
// definitions are in specs/; each contract below is a theorem about them.
#![tactic(auto)]

ghost use Rattle.counting.specs.Counting.{GreatestFirst, CountLaw, WorkedCounts};
ghost use Rattle.counting.specs.Gain.{HeavySuffices};

// Members chosen greatest first, until they reach the degree, are as few as can be.
pub fn greatest_first_is_least()
    ensures { GreatestFirst }
{}

// "At least c members are true" follows from a core exactly when c is at most the least number that reaches its degree.
#[tactic(auto, using(crate::proofs::Counting::count_law))]
pub fn count_rules_that_follow()
    ensures { CountLaw }
{}

// No count rule over the core's literals that follows from it gains more than the best one among the literals from some
// weight on.
#[tactic(auto, using(crate::proofs::Gain::heavy_suffices))]
pub fn heavy_literals_suffice()
    ensures { HeavySuffices }
{}

// The coefficients 3, 1, 1, 1 need three for the degree 5 and four for the degree 6.
#[tactic(auto, using(crate::proofs::Worked::worked_counts))]
pub fn counts_worked()
    ensures { WorkedCounts }
{}
