// What the terms of a rule can still give together, and the mark that makes a literal true.
ghost use Rattle.std.specs.Prelude.{◌≡◌, ◌≤◌, cond};
ghost use Rattle.rules.specs.Rule.{at, marked, open_sum};
ghost use Rattle.rules.specs.Terms.{true_mark};
ghost use Rattle.rules.specs.declared.Mark.TheVariants.{Zero, One};

use super::Mark;
use super::term::Literal;

// The coefficients of the literals that are not marked false, over the first variables.
pub fn sum_left(coefficients: &[i32; 80], marks: &[Mark; 80], variables: usize) -> u64
    requires { variables ≤ 80 }
    ensures { result ≡ open_sum variables (at coefficients.now) (marked marks.now) }
{
    coefficients
        .iter()
        .zip(marks)
        .take(variables)
        .map(|(coefficient, mark)| u64::from(mark.leaves(*coefficient)))
        .sum()
}

// The mark of a part that is taken, where this is true, or left out.
impl From<bool> for Mark {
    ghost from_gives = { λ taken r. r ≡ cond taken One Zero };

    fn from(taken: bool) -> Mark {
        if taken { Mark::One } else { Mark::Zero }
    }
}

impl Literal {
    // The mark of its variable that makes the literal true.
    pub fn true_mark(self) -> Mark
        ensures { result ≡ true_mark self }
    {
        Mark::from(!self.negated)
    }
}
