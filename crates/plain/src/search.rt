// A question that is open: what it assumes, and where the search for its answer stands. Exactly the first variables are
// marked.
ghost use Rattle.std.specs.Prelude.{◌≡◌, ℕ, ◌<◌, ◌≢◌};
ghost use Rattle.rules.specs.declared.Mark.TheVariants.{Free};
ghost use Rattle.plain.specs.Ready.{at_walk};

use super::walk::Walk;
use store::assumed::Assumed;

// What a step of a search comes to: it goes on, its marks are a solution, or every marking is passed.
#[derive(Clone, Copy)]
pub enum Reached {
    Onward,
    Solved,
    Ended,
}

#[derive(Drop)]
pub struct Search {
    pub assumed: Assumed,
    pub walk: Walk,
    ghost marked: { (i : ℕ) → i < walk.depth → at_walk walk i ≢ Free },
    ghost first: { (i : ℕ) → (at_walk walk i ≢ Free) → i < walk.depth },
}
