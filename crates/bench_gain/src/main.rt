// How long it takes to find the count rule of greatest gain: cores of ten to eighty literals, each of another weight, tried
// again and again.
//
// What is kept of each core is printed, and is the same in every run. The times go to standard error: the shortest of all
// tries, which says most on a machine that does other work too, and the average.
#![tactic(auto)]

mod wide;

use gains::best::best_count_rule;
use gains::kinds::Round;
use std::io;
use timing::timed;
use wide::Wide;

// How often each core is tried.
const TRIES: u32 = 2000;

fn main(rt: HostRuntime) -> anyhow::Result<()> {
    for literals in [10, 20, 40, 80] {
        measure(&rt, literals, &Wide::of(literals))?;
    }
    Ok(())
}

// Tries a core again and again, and prints what is kept and how long a try takes.
fn measure(rt: &HostRuntime, literals: usize, wide: &Wide) -> io::Result<()> {
    let times = timed(rt, TRIES, || {
        let _ = kept(wide);
    })?;
    let shortest = times.shortest.as_nanos();
    let average = times.average.as_nanos();
    let Round { weight, count } = kept(wide);
    println!(rt; "{literals} literals: count {count}, smallest weight {weight}")?;
    eprintln!(rt; "{literals} literals: shortest {shortest} ns, on average {average} ns")
}

// What is kept of a core.
fn kept(wide: &Wide) -> Round {
    match best_count_rule(&wide.core, &wide.weights) {
        Ok(Some(kept)) => Round {
            weight: kept.weight,
            count: kept.rule.degree,
        },
        _ => Round {
            weight: 0,
            count: 0,
        },
    }
}
