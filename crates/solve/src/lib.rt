// The rules of a holder, loaded into an engine, and the question whether some marking meets them all.
#![tactic(auto)]

ghost use Rattle.std.specs.Prelude.{◌≡◌, ℕ, ◌<◌, ◌≤◌, length, Ok, unsigned_abs};
ghost use Rattle.rules.specs.Terms.{signed};
ghost use Rattle.solve.specs.Listed.{Lists};
ghost use Rattle.solve.specs.Loads.{Loads, Solves};

use arrayvec::ArrayVec;
use ask::{Asked, ask};
use engine::asked::Engine;
use engine::holder::RuleHolder;
use faults::fault::EngineFault;
use rules::term::{Literal, Term};

// The term of a variable with this coefficient.
fn term_of(variable: usize, coefficient: i32) -> Term
    ensures signed { signed result ≡ coefficient }
    ensures size { result.coefficient ≡ unsigned_abs coefficient }
    ensures variable { result.literal.variable ≡ variable }
{
    Term {
        coefficient: coefficient.unsigned_abs(),
        literal: Literal {
            variable,
            negated: coefficient < 0,
        },
    }
}

// The terms of a row of coefficients.
pub fn terms_of(row: &[i32; 80]) -> ArrayVec<Term, 80>
    ensures { Lists row.now result.items }
{
    let mut terms = ArrayVec::new();
    for (variable, coefficient) in row.iter().enumerate() {
        if coefficient.unsigned_abs() > 0 {
            terms.push(term_of(variable, *coefficient));
        }
    }
    terms
}

// Starts the engine again with the holder's variables and rules.
pub fn load<H: RuleHolder, E: Engine>(holder: &H, engine: &mut E) -> Result<(), EngineFault>
    ensures loads { Loads H.RuleHolder.limits (H.RuleHolder.held holder.now) result (E.RuleHolder.held engine.new) (E.Engine.question engine.new) }
    ensures sound { result ≡ Ok tt → E.Engine.sound engine.new }
{
    engine.begin(holder.variables())?;
    // a holder is asked rule by rule, and has no iterator
    for k in 0..holder.rules() {
        let rule = holder.rule(k)?;
        let terms = terms_of(&rule.coefficients);
        if let Err(fault) = engine.add(terms.as_slice(), rule.degree) {
            return Err(fault);
        }
    }
    Ok(())
}

// Asks the engine whether some marking meets all rules of the holder, in at most `allowance` steps.
pub fn solve<H: RuleHolder, E: Engine>(
    holder: &H,
    engine: &mut E,
    allowance: u64,
) -> Result<Asked, EngineFault>
    ensures { Solves H.RuleHolder.limits E.Engine.pledge (H.RuleHolder.held holder.now) allowance result }
{
    load(holder, engine)?;
    ask(engine, &[], allowance)
}
