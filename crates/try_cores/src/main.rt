// Looks for the count rule of greatest gain in every core of a list, and holds it against what the list expects.
//
// The list comes from standard input, one core to a line: coefficients, degree and weights, and then the numbers of the
// literals that are kept, their count, their smallest weight and the gain. A line that begins with `#` is a remark. For each
// core that comes to anything else a line is printed, and in the end how many there are and how many agree. The program ends
// with status 1 where some disagree.
#![tactic(auto)]

use anyhow::anyhow;
use core_text::line::Line;
use core_text::show::Numbers;
use gains::best::best_count_rule;
use gains::kinds::Round;
use rules::term::Rule;
use std::alloc::{AllocError, Global};
use std::io;
use tally::compared;

fn main(rt: HostRuntime) -> anyhow::Result<()> {
    let list = io::read_to_string(rt.alloc(), rt.stdin())?;
    let tally = compared(
        "cores",
        list.as_str(),
        |line| compare(&rt, rt.alloc(), line),
    )?;
    println!(rt; "{tally}")?;
    if tally.is_whole() {
        Ok(())
    } else {
        Err(anyhow!("some cores disagree"))
    }
}

// Whether what comes of the core of a line is what the line expects; if not, both are printed.
fn compare(rt: &impl Print, heap: Global, line: &str) -> anyhow::Result<bool> {
    let Ok(core) = Line::try_from(line) else {
        println!(rt; "not a core: {line}")?;
        return Ok(false);
    };
    let got = outcome(heap, &core.rule, &core.weights.numbers)?;
    if got.as_bytes() == core.rest.as_bytes() {
        return Ok(true);
    }
    let expected = core.rest;
    println!(rt; "expected {expected}, got {got}")?;
    Ok(false)
}

// What comes of a core, as the list writes it.
fn outcome(heap: Global, core: &Rule, price: &[i32; 80]) -> Result<String, AllocError> {
    match best_count_rule(core, price) {
        Err(refusal) => format!(in heap; "{refusal}"),
        Ok(None) => String::from_str(heap, "nothing"),
        Ok(Some(kept)) => {
            let literals = Numbers(&kept.rule.coefficients);
            let weight = kept.weight;
            let count = kept.rule.degree;
            let gain = Round { weight, count }.gain();
            format!(in heap; "{literals}\t{count}\t{weight}\t{gain}")
        }
    }
}
