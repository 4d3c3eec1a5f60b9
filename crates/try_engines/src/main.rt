// Tries engines: the refusals of every call, and the answers on small rules against every marking.
//
// The refusals are printed as they come, each with what was called. Then rules over up to six variables are made by chance,
// always the same ones, and questions with and without assumed literals are asked of the plain engine and of the plain
// engine asked twice; each answer is held against all markings. The program ends with status 1 where one is wrong.
#![tactic(auto)]

mod chance;
mod judge;
mod refusals;

use anyhow::anyhow;
use chance::Chance;
use judge::Tally;
use plain::state::Plain;
use twice::Twice;

// How many rule sets are tried, with four questions each.
const TRIALS: u32 = 400;

fn main(rt: HostRuntime) -> anyhow::Result<()> {
    refusals::print_all(&rt)?;
    let mut plain = Plain::new();
    let tally = judge::compare_all(&mut plain, &mut Chance::new(1), TRIALS);
    report(&rt, "plain", tally)?;
    let mut twice = Twice::over(Plain::new());
    let tally = judge::compare_all(&mut twice, &mut Chance::new(1), TRIALS);
    report(&rt, "plain, asked twice", tally)
}

// Prints how many questions there were and how they were answered.
fn report(rt: &HostRuntime, name: &str, tally: Tally) -> anyhow::Result<()> {
    let Tally {
        yes,
        no,
        wrong,
        steps,
    } = tally;
    println!(rt; "{name}: yes {yes}, no {no}, wrong {wrong}, steps {steps}")?;
    if wrong == 0 {
        Ok(())
    } else {
        Err(anyhow!("some answers are wrong"))
    }
}
