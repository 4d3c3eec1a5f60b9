// The rules that an engine holds, in the order in which they were added. Rows past the count hold what is left from earlier
// rules, and say nothing.
ghost use Rattle.std.specs.Prelude.{◌≡◌, ℕ, ◌<◌, ◌≤◌, length, get_or, slice_index_or};
ghost use Rattle.rules.specs.Rule.{size};
ghost use Rattle.rules.specs.Terms.{coefficient};
ghost use Rattle.engine.specs.Held.{blank};

use rules::term::Rule;

// An array beside its count, and no ArrayVec, whose clear writes a blank over each rule that was held.
#[derive(Drop)]
pub struct Store {
    pub variables: usize,
    pub count: usize,
    pub rules: [Rule; 160],
    ghost few: { variables ≤ 80 },
    ghost room: { count ≤ 160 },
    ghost whole: { length rules ≡ 160 },
    ghost sizes: { (k i : ℕ) → k < count → size (coefficient (slice_index_or rules k blank) i) ≤ 1000000000 },
    ghost beyond: { (k i : ℕ) → k < count → variables ≤ i → size (coefficient (slice_index_or rules k blank) i) ≤ 0 },
    ghost degrees: { (k : ℕ) → k < count → (get_or rules k blank).degree ≤ 1000000000 },
}
