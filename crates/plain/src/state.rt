// The state of the plain engine: its rules, and the search for an answer while a question is open.
ghost use Rattle.std.specs.Prelude.{◌≡◌, ℕ, ◌<◌, ◌≤◌, ◌≢◌};
ghost use Rattle.std.specs.Option.{ForSome};
ghost use Rattle.rules.specs.Terms.{only};
ghost use Rattle.rules.specs.declared.Mark.TheVariants.{Free};
ghost use Rattle.store.specs.View.{held_in};
ghost use Rattle.store.specs.Assumes.{assumed_in};
ghost use Rattle.backtrack.specs.Walk.{Exhausted};
ghost use Rattle.plain.specs.Ready.{at_walk};

use super::search::Search;
use store::keep::Store;

// A search marks and assumes only variables that are there, and has passed no solution.
// To close one writes over all of it, so the calls that close a question ask first whether one is open.
#[derive(Drop)]
pub struct Plain {
    pub store: Store,
    pub asking: Option<Search>,
    ghost deep: { ForSome asking (λ x. x.walk.depth ≤ store.variables) },
    ghost known: { ForSome asking (λ x. (v : ℕ) → (only (assumed_in x.assumed) v ≢ Free) → v < store.variables) },
    ghost exhausted: { ForSome asking (λ x. Exhausted (held_in store) (assumed_in x.assumed) (at_walk x.walk) x.walk.depth) },
}
