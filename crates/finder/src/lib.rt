// Whether some board meets a sheet, asked of any engine.
#![tactic(auto)]

ghost use Rattle.std.specs.Prelude.{◌≡◌, ℕ, ◌<◌};
ghost use Rattle.rules.specs.Rule.{marked};
ghost use Rattle.finder.specs.Finding.{Finds};

pub mod found;

use ask::Asked;
use board::Board;
use engine::answer::Answer;
use engine::asked::Engine;
use found::{Finding, Found};
use ledger::state::Sheet;
use rules::Mark;
use solve::solve;
use std::array;

// The marks of the parts.
fn board_of(marks: &[Mark; 80]) -> Board
    ensures { (i : ℕ) → i < 40 → marked result.marks i ≡ marked marks.now i }
{
    Board {
        marks: array::from_fn(|part| marks[part]),
    }
}

// A board that meets the sheet, or that there is none, in at most `allowance` steps of the engine.
pub fn find<E: Engine>(sheet: &Sheet, engine: &mut E, allowance: u64) -> Finding
    ensures { Finds E.Engine.pledge sheet.now.words allowance result }
{
    match solve(sheet, engine, allowance) {
        Ok(Asked { answer, steps }) => {
            let found = match answer {
                Answer::Going => Found::Unfinished,
                Answer::Yes(marks) => Found::Fits(board_of(&marks)),
                Answer::No(_) => Found::Nothing,
            };
            Finding { found, steps }
        }
        Err(_) => unreachable(),
    }
}
