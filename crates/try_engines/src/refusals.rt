// The refusals of engines, one for each way to be refused.
use engine::asked::Engine;
use engine::holder::RuleHolder;
use faults::fault::{EngineFault, Refusal};
use plain::state::Plain;
use rules::term::{Literal, Term};
use std::io;

// Prints what a call came to.
fn show<T: Drop>(rt: &HostRuntime, call: &str, res: Result<T, EngineFault>) -> io::Result<()> {
    match res {
        Ok(_) => println!(rt; "{call}: taken"),
        Err(fault) => {
            let refusal = Refusal::from(fault);
            println!(rt; "{call}: refused {refusal}")
        }
    }
}

fn literal(variable: usize, negated: bool) -> Literal {
    Literal { variable, negated }
}

fn term(coefficient: u32, variable: usize) -> Term {
    Term {
        coefficient,
        literal: literal(variable, false),
    }
}

pub fn print_all(rt: &HostRuntime) -> io::Result<()> {
    let mut engine = Plain::new();
    variables(rt, &mut engine)?;
    terms(rt, &mut engine)?;
    degrees(rt, &mut engine)?;
    questions(rt, &mut engine)?;
    room(rt, &mut engine)
}

fn variables(rt: &HostRuntime, engine: &mut Plain) -> io::Result<()> {
    show(rt, "begin with 0 variables", engine.begin(0))?;
    show(rt, "begin with 81", engine.begin(81))?;
    show(rt, "begin with 80", engine.begin(80))?;
    show(rt, "begin with 3", engine.begin(3))?;
    show(rt, "grow by 0", engine.grow(0))?;
    show(rt, "grow by 78", engine.grow(78))?;
    show(rt, "grow by the greatest number", engine.grow(usize::MAX))?;
    show(rt, "grow by 1", engine.grow(1))
}

fn terms(rt: &HostRuntime, engine: &mut Plain) -> io::Result<()> {
    show(
        rt,
        "add with coefficient 0",
        engine.add(&[term(1, 0), term(0, 1)], 1),
    )?;
    show(
        rt,
        "add with coefficient 1000000001",
        engine.add(&[term(1_000_000_001, 0)], 1),
    )?;
    show(
        rt,
        "add with variable 4 of 4",
        engine.add(&[term(1, 0), term(1, 1), term(1, 4)], 1),
    )?;
    show(
        rt,
        "add with variable 0 twice",
        engine.add(&[term(1, 0), term(1, 1), term(1, 0)], 1),
    )?;
    show(
        rt,
        "add with degree 1000000001",
        engine.add(&[term(1, 0), term(1, 1)], 1_000_000_001),
    )?;
    show(
        rt,
        "add without terms, degree 1000000001",
        engine.add(&[], 1_000_000_001),
    )?;
    show(
        rt,
        "add with the greatest numbers",
        engine.add(&[term(1_000_000_000, 0)], 1_000_000_000),
    )
}

fn degrees(rt: &HostRuntime, engine: &mut Plain) -> io::Result<()> {
    show(rt, "copy rule 1 of 1", engine.rule(1))?;
    show(rt, "copy rule 0", engine.rule(0))?;
    show(
        rt,
        "add with degree 2",
        engine.add(&[term(2, 1), term(1, 2)], 2),
    )?;
    show(rt, "raise rule 2 of 2", engine.raise(2, 5))?;
    show(rt, "raise rule 1 to 1", engine.raise(1, 1))?;
    show(
        rt,
        "raise rule 1 to 1000000001",
        engine.raise(1, 1_000_000_001),
    )?;
    show(rt, "raise rule 1 to 2", engine.raise(1, 2))?;
    show(rt, "raise rule 1 to 3", engine.raise(1, 3))
}

fn questions(rt: &HostRuntime, engine: &mut Plain) -> io::Result<()> {
    show(rt, "step without a question", engine.step())?;
    show(
        rt,
        "pose variable 4 of 4",
        engine.pose(&[literal(0, true), literal(4, true)]),
    )?;
    show(
        rt,
        "pose variable 1 twice",
        engine.pose(&[literal(1, true), literal(1, false)]),
    )?;
    show(rt, "step after a refused question", engine.step())?;
    show(
        rt,
        "pose variables 0 and 1",
        engine.pose(&[literal(0, true), literal(1, false)]),
    )?;
    show(rt, "step", engine.step())?;
    show(rt, "grow by 1", engine.grow(1))?;
    show(rt, "step after growing", engine.step())
}

fn room(rt: &HostRuntime, engine: &mut Plain) -> io::Result<()> {
    let mut added: usize = engine.rules();
    for _ in 0..160 {
        if engine.add(&[term(1, 0)], 1).is_ok() {
            added = added.saturating_add(1);
        }
    }
    let rules = engine.rules();
    println!(rt; "rules held: {rules}, as counted: {added}")?;
    show(
        rt,
        "add to a full engine, with a bad term too",
        engine.add(&[term(0, 0)], 1),
    )
}
