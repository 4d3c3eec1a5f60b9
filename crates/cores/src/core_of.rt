// From a rule and the assumed literals to the core.
ghost use Rattle.std.specs.Prelude.{◌≡◌, ℕ, ◌<◌, ◌≤◌, Some, codes, pos, if◌then◌else◌};
ghost use Rattle.rules.specs.Rule.{at, marked};
ghost use Rattle.rules.specs.Terms.{only};
ghost use Rattle.cores.specs.Cores.{is_false, sizes, CoreOf};

use rules::Mark;
use rules::reach::sum_left;
use rules::term::{Literal, Rule, WIDTH};
use std::error::Error;
use std::{array, fmt};

// The coefficients of a rule together miss its degree.
#[derive(Clone, Copy, PartialEq, Eq, Debug)]
pub struct CannotBeMet;

impl fmt::Display for CannotBeMet {
    ghost output = { λ _. Some (codes "cannot be met") };

    fn fmt<W: fmt::Write>(&self, f: &mut fmt::Formatter<W>) -> fmt::Result {
        write!(f, "cannot be met")
    }
}

impl Error for CannotBeMet {}

// The marks under which the literals are true, and no other variable is marked. Of two literals on one variable the first
// decides.
fn marks_of(literals: &[Literal]) -> [Mark; 80]
    ensures { (i : ℕ) → i < 80 → marked result i ≡ only literals.now i }
{
    let mut marks = [Mark::Free; WIDTH];
    for literal in literals.iter().rev() {
        if literal.variable < WIDTH {
            marks[literal.variable] = literal.true_mark();
        }
    }
    marks
}

// Whether a mark makes the literal of a coefficient false.
fn is_false(coefficient: i32, mark: Mark) -> bool
    ensures { result ≡ is_false coefficient mark }
{
    match mark {
        Mark::Free => false,
        Mark::Zero => 0 <= coefficient,
        Mark::One => coefficient < 0,
    }
}

// What weakening leaves of a coefficient: all of it where its literal is false, else nothing.
fn left_of(coefficient: i32, mark: Mark) -> i32
    ensures { result ≡ (if is_false coefficient mark then coefficient else pos 0) }
{
    if is_false(coefficient, mark) {
        coefficient
    } else {
        0
    }
}

// The coefficients of the false literals.
fn left_over(coefficients: &[i32; 80], marks: &[Mark; 80]) -> [i32; 80]
    ensures { (i : ℕ) → i < 80 → at result i ≡ (if is_false (at coefficients.now i) (marked marks.now i) then at coefficients.now i else pos 0) }
{
    array::from_fn(|i| left_of(coefficients[i], marks[i]))
}

// All coefficients together.
pub fn sum_of(coefficients: &[i32; 80]) -> u64
    ensures value { result ≡ sizes 80 (at coefficients.now) }
    ensures bound { result ≤ 343597383680 }
{
    coefficients
        .iter()
        .map(|coefficient| u64::from(coefficient.unsigned_abs()))
        .sum()
}

// The core of a rule under the assumed literals.
pub fn core_of(rule: &Rule, assumed: &[Literal]) -> Result<Rule, CannotBeMet>
    ensures { CoreOf rule.now assumed.now result }
{
    let marks = marks_of(assumed);
    let coefficients = left_over(&rule.coefficients, &marks);
    let lowered = u64::from(rule.degree).saturating_sub(sum_left(
        &rule.coefficients,
        &marks,
        WIDTH,
    ));
    if sum_of(&coefficients) < lowered {
        return Err(CannotBeMet);
    }
    Ok(Rule {
        coefficients,
        degree: lowered as u32,
    })
}
