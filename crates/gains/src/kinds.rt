// Rounds and count rules.
ghost use Rattle.std.specs.Prelude.{◌≡◌, ◌*◌};

use rules::term::Rule;

// A round: the literals of at least this weight, of which at least so many are true.
#[derive(Clone, Copy)]
pub struct Round {
    pub weight: u32,
    pub count: u32,
}

impl Round {
    // What the round gains: each of the literals counted weighs at least the round's weight.
    pub fn gain(self) -> u64
        ensures { result ≡ self.count * self.weight }
    {
        u64::from(self.count) * u64::from(self.weight)
    }
}

// A count rule: its terms have the coefficient 1, its degree is the count, and its lightest literal has this weight.
#[derive(Clone, Copy)]
pub struct CountRule {
    pub rule: Rule,
    pub weight: u32,
}
