// Shows one core from beginning to end: a rule, the literals assumed false, the core, its rounds with their gains, the rule
// that is kept, and the price before and after.
//
// The rule comes from standard input: coefficients, degree and weights, a tabulator after each. Every literal that weighs
// something is assumed false, as where a lower price is asked for. A line that begins with `#` is a remark.
#![tactic(auto)]

mod steps;

use anyhow::anyhow;
use core_text::line::Line;
use std::io;
use steps::show_line;
use tally::is_remark;

fn main(rt: HostRuntime) -> anyhow::Result<()> {
    let text = io::read_to_string(rt.alloc(), rt.stdin())?;
    for line in text.lines() {
        if !is_remark(line) {
            let Ok(written) = Line::try_from(line) else {
                return Err(anyhow!("a line is not a rule with weights"));
            };
            show_line(&rt, rt.alloc(), &written)?;
        }
    }
    Ok(())
}
