// The steps from a rule to the reformulated price, each as a line of text.

use core_text::line::Line;
use core_text::show::{Literals, Terms, Written};
use cores::core_of::core_of;
use counts::count::lowered;
use counts::order::Ranked;
use gains::best::best_count_rule;
use gains::kinds::{CountRule, Round};
use gains::rounds::Weighted;
use reform::kinds::{Price, Reformulation, Room};
use reform::price::reformulate;
use rules::term::{Literal, WIDTH};
use std::alloc::Global;

// Fresh variables and rules that there is room for.
const ROOM: Room = Room {
    variables: 40,
    rules: 90,
};

// The literals that weigh something, each assumed false.
fn assumed(heap: Global, weights: &[i32; 80]) -> anyhow::Result<Vec<Literal>> {
    let mut literals = Vec::new(heap);
    for (variable, weight) in weights.iter().enumerate() {
        if *weight != 0 {
            literals.push(Literal {
                variable,
                negated: 0 <= *weight,
            })?;
        }
    }
    Ok(literals)
}

// One rule with its weights, from beginning to end.
pub fn show_line(rt: &impl Print, heap: Global, line: &Line) -> anyhow::Result<()> {
    let written = Written(&line.rule);
    let weights = &line.weights.numbers;
    let price = Terms(weights);
    println!(rt; "the rule: {written}")?;
    println!(rt; "the price: {price}")?;
    let assumed = assumed(heap, weights)?;
    match core_of(&line.rule, assumed.as_slice()) {
        Err(refusal) => {
            println!(rt; "the core {refusal}")?;
            Ok(())
        }
        Ok(core) => {
            let written = Written(&core);
            println!(rt; "the core: {written}")?;
            let weighted = Weighted {
                core: &core,
                price: weights,
            };
            show_core(rt, &weighted, line.weights.length)
        }
    }
}

// The rounds of a core, and what is kept.
fn show_core(rt: &impl Print, weighted: &Weighted, variables: usize) -> anyhow::Result<()> {
    let Ok(ranked) = Ranked::of(weighted.core) else {
        return Ok(());
    };
    show_rounds(rt, weighted, &ranked)?;
    match best_count_rule(weighted.core, weighted.price) {
        Ok(Some(kept)) => show_kept(rt, &kept, weighted.price, variables),
        _ => {
            println!(rt; "nothing is counted")?;
            Ok(())
        }
    }
}

// Every round, the last with count 0 where there is one. The search of gains has these steps too, but keeps one round, and
// leaves out the one with count 0: walking and printing share no more than the calls.
fn show_rounds(rt: &impl Print, weighted: &Weighted, ranked: &Ranked) -> anyhow::Result<()> {
    let mut members = weighted.literals();
    for number in 1..=WIDTH {
        let Some(place) = weighted.lightest(&members) else {
            return Ok(());
        };
        let round = Round {
            weight: weighted.weight_at(place),
            count: ranked.count_members(&members),
        };
        let literals = Literals {
            row: &weighted.core.coefficients,
            members: &members,
        };
        let degree = lowered(weighted.core, &members);
        let Round { weight, count } = round;
        let gain = round.gain();
        println!(rt;
            "round {number}: {literals}: degree {degree}, count {count}, smallest weight {weight}, gain {gain}"
        )?;
        if count == 0 {
            return Ok(());
        }
        members = weighted.weaken(&members, place);
    }
    Ok(())
}

// The rule that is kept, and the price after it.
fn show_kept(
    rt: &impl Print,
    kept: &CountRule,
    weights: &[i32; 80],
    variables: usize,
) -> anyhow::Result<()> {
    let written = Written(&kept.rule);
    println!(rt; "kept: {written}")?;
    let price = Price {
        constant: 0,
        weights: *weights,
    };
    match reformulate(&price, variables, kept, ROOM) {
        Ok(after) => show_price(rt, &after),
        Err(refusal) => {
            println!(rt; "{refusal}")?;
            Ok(())
        }
    }
}

// The new price and the new rules.
fn show_price(rt: &impl Print, after: &Reformulation) -> anyhow::Result<()> {
    let constant = after.price.constant;
    let weights = Terms(&after.price.weights);
    println!(rt; "the price after: {constant} + {weights}")?;
    for k in 0..after.rules() {
        if let Some(new) = after.new_rule(k) {
            let written = Written(&new);
            println!(rt; "a new rule: {written}")?;
        }
    }
    Ok(())
}
