// Which literals a question can assume.
ghost use Rattle.std.specs.Prelude.{◌≡◌, ℕ, ◌<◌, ◌≤◌, [], length, MatchOption, Result as Outcome};
ghost use Rattle.engine.specs.Held.{FirstBad, Every};
ghost use Rattle.engine.specs.Questions.{GoodLiteral};
ghost use Rattle.store.specs.Assumes.{assumed_in, Takes};

use super::assumed::Assumed;
use super::stands::stands_alone;
use faults::fault::EngineFault;
use rules::Mark;
use rules::term::{Literal, WIDTH};

// The first literal that is of none of the variables, or of one before it.
fn bad_literal(literals: &[Literal], variables: usize) -> Option<usize>
    ensures { MatchOption result (Every (GoodLiteral variables literals.now) (length literals.now)) (λ i. FirstBad (GoodLiteral variables literals.now) (length literals.now) i) }
{
    (0..literals.len()).find(
        |&i|
            requires { i < length literals.now }
        { !stands_alone(literals, i, variables) },
    )
}

impl Assumed {
    // No literals.
    pub fn nothing() -> Assumed
        ensures { assumed_in result ≡ [] }
    {
        Assumed {
            count: 0,
            literals: [Literal::default(); WIDTH],
            marks: [Mark::Free; WIDTH],
        }
    }

    // These literals, or the first that is not good.
    pub fn of(literals: &[Literal], variables: usize) -> Result<Assumed, EngineFault>
        requires { variables ≤ 80 }
        ensures { Takes variables literals.now result }
    {
        if let Some(i) = bad_literal(literals, variables) {
            return Err(EngineFault::Term(i));
        }
        let mut chosen = [Literal::default(); WIDTH];
        let mut marks = [Mark::Free; WIDTH];
        for (i, literal) in literals.iter().enumerate() {
            chosen[i] = *literal;
            marks[literal.variable] = literal.true_mark();
        }
        Ok(Assumed {
            count: literals.len(),
            literals: chosen,
            marks,
        })
    }
}
