// One question, asked to its end over any engine.
#![tactic(auto)]

ghost use Rattle.std.specs.Prelude.{◌≤◌};
ghost use Rattle.ask.specs.Asking.{Asking};

use engine::answer::Answer;
use engine::asked::Engine;
use faults::fault::EngineFault;
use rules::term::Literal;

// The answer, `Going` where the allowance did not suffice, and the steps that were made.
#[derive(Clone, Copy)]
pub struct Asked {
    pub answer: Answer,
    pub steps: u64,
}

// Asks whether a marking meets the engine's rules and makes the literals true, in at most `allowance` steps.
pub fn ask<E: Engine>(
    engine: &mut E,
    assumed: &[Literal],
    allowance: u64,
) -> Result<Asked, EngineFault>
    ensures asked { E.Engine.sound engine.old → Asking E.Engine.pledge assumed.now allowance (E.RuleHolder.held engine.old) (E.Engine.question engine.old) result (E.RuleHolder.held engine.new) (E.Engine.question engine.new) }
    ensures kept { E.Engine.sound engine.old → E.Engine.sound engine.new }
{
    engine.pose(assumed)?;
    for before in 0..allowance {
        match engine.step()? {
            Answer::Going => {}
            answer => {
                return Ok(Asked {
                    answer,
                    steps: before + 1,
                });
            }
        }
    }
    Ok(Asked {
        answer: Answer::Going,
        steps: allowance,
    })
}
