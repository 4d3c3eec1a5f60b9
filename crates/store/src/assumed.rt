// The literals that a question assumes, in their order and as marks: the marks are what is asked at each step.
ghost use Rattle.std.specs.Prelude.{◌≡◌, ℕ, ◌≤◌, length, take};
ghost use Rattle.rules.specs.Rule.{marked};
ghost use Rattle.rules.specs.Terms.{only};

use rules::Mark;
use rules::term::Literal;

// An array beside its count, and no ArrayVec, since that is never Copy.
#[derive(Clone, Copy)]
pub struct Assumed {
    pub count: usize,
    pub literals: [Literal; 80],
    pub marks: [Mark; 80],
    ghost room: { count ≤ 80 },
    ghost whole: { length literals ≡ 80 },
    ghost wide: { length marks ≡ 80 },
    ghost agrees: { (v : ℕ) → marked marks v ≡ only (take count literals) v },
}
