// The vocabulary of rules: marks, and what a term can still give under one.
//
// A rule is a row of signed coefficients and a degree. The coefficient of a part is positive where the rule's literal
// is the part, negative where it is the complement, and 0 where the part is in no term. specs/Rule.antt says when a rule
// is met or broken; specs/Sum.antt has the one sum that all of it is made of, and proofs/Sum.antt its laws.
#![tactic(auto)]

ghost use Rattle.std.specs.Prelude.{◌≡◌};
ghost use Rattle.rules.specs.Rule.{kept};

pub mod reach;
pub mod term;
mod words;

// What is known of a part: nothing yet, left out, or taken.
#[derive(Clone, Copy, PartialEq, Eq, Debug)]
pub enum Mark {
    Free,
    Zero,
    One,
}

impl Mark {
    // What a term of this coefficient still can give: its size, unless the mark makes its literal false.
    pub fn leaves(self, coefficient: i32) -> u32
        ensures { result ≡ kept coefficient self }
    {
        match self {
            Mark::Free => coefficient.unsigned_abs(),
            Mark::Zero => if coefficient < 0 {
                coefficient.unsigned_abs()
            } else {
                0
            },
            Mark::One => if coefficient < 0 {
                0
            } else {
                coefficient.unsigned_abs()
            },
        }
    }
}
