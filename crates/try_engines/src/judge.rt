// Answers held against every marking.
use super::chance::Chance;
use ask::{Asked, ask};
use engine::answer::Answer;
use engine::asked::Engine;
use faults::fault::EngineFault;
use rules::Mark;
use rules::reach::sum_left;
use rules::term::{Literal, Rule, Term};
use std::array;

// How many questions were answered with yes and with no, how many answers were wrong, and the steps of all.
#[derive(Clone, Copy, Default)]
pub struct Tally {
    pub yes: u32,
    pub no: u32,
    pub wrong: u32,
    pub steps: u64,
}

// Tries so many rule sets.
pub fn compare_all<E: Engine>(engine: &mut E, chance: &mut Chance, trials: u32) -> Tally {
    let mut tally = Tally::default();
    for _ in 0..trials {
        let variables = 1 + chance.below(6) as usize;
        if make_rules(engine, chance, variables).is_ok() {
            for assumed in 0..4 {
                question(engine, chance, variables, assumed, &mut tally);
            }
        } else {
            tally.wrong = tally.wrong.saturating_add(1);
        }
    }
    tally
}

// Begins anew with rules made by chance, or what the engine refuses.
fn make_rules<E: Engine>(
    engine: &mut E,
    chance: &mut Chance,
    variables: usize,
) -> Result<(), EngineFault> {
    engine.begin(variables)?;
    for _ in 0..1 + chance.below(6) {
        let terms = six_terms(chance);
        let degree = chance.below(10);
        engine.add(&terms[..variables.min(6)], degree)?;
    }
    Ok(())
}

// A term of each of the first six variables. The number before those of the terms is not used.
fn six_terms(chance: &mut Chance) -> [Term; 6] {
    chance.below(2);
    array::from_fn(|variable| Term {
        coefficient: 1 + chance.below(5),
        literal: literal(chance, variable),
    })
}

// A variable or its complement.
fn literal(chance: &mut Chance, variable: usize) -> Literal {
    Literal {
        variable,
        negated: chance.below(2) == 0,
    }
}

// Asks one question with up to so many literals, and counts the answer.
fn question<E: Engine>(
    engine: &mut E,
    chance: &mut Chance,
    variables: usize,
    literals: usize,
    tally: &mut Tally,
) {
    let assumed = [literal(chance, 0), literal(chance, 1), literal(chance, 2)];
    let used = literals.min(variables).min(3);
    let assumed = &assumed[..used];
    let right = match ask(engine, assumed, 1_000_000) {
        Ok(Asked { answer, steps }) => {
            tally.steps = tally.steps.saturating_add(steps);
            is_right(engine, assumed, answer, tally)
        }
        Err(_) => false,
    };
    if !right {
        tally.wrong = tally.wrong.saturating_add(1);
    }
}

// Whether every marking of six variables bears the answer out.
fn is_right<E: Engine>(engine: &E, assumed: &[Literal], answer: Answer, tally: &mut Tally) -> bool {
    match answer {
        Answer::Going => false,
        Answer::Yes(marks) => {
            tally.yes = tally.yes.saturating_add(1);
            is_solution(engine, assumed, &marks)
        }
        Answer::No(rule) => {
            tally.no = tally.no.saturating_add(1);
            refutes(engine, assumed, &rule)
        }
    }
}

// Whether the marks meet the rules and the literals.
fn is_solution<E: Engine>(engine: &E, assumed: &[Literal], marks: &[Mark; 80]) -> bool {
    engine.first_broken(marks).is_none()
        && assumed.iter().all(|literal| marks.get(literal.variable) == Some(&literal.true_mark()))
}

// Whether no marking is a solution, all that meet the rules meet this rule, and the literals alone break it.
fn refutes<E: Engine>(engine: &E, assumed: &[Literal], rule: &Rule) -> bool {
    let variables = engine.variables().min(80);
    (0..64).all(|number| {
        let marks = marking(number);
        engine.first_broken(&marks).is_some()
            || !is_solution(engine, assumed, &marks) && !is_below(rule, &marks, variables)
    }) && is_below(rule, &marks_of(assumed), variables)
}

// The marks of these literals alone.
fn marks_of(literals: &[Literal]) -> [Mark; 80] {
    let mut marks = [Mark::Free; 80];
    for literal in literals {
        if literal.variable < 80 {
            marks[literal.variable] = literal.true_mark();
        }
    }
    marks
}

// Whether the rule's degree is out of reach.
fn is_below(rule: &Rule, marks: &[Mark; 80], variables: usize) -> bool {
    sum_left(&rule.coefficients, marks, variables.min(80)) < u64::from(rule.degree)
}

// The marking of six variables with this number: each bit is a variable's.
fn marking(number: u32) -> [Mark; 80] {
    array::from_fn(|variable| {
        if variable < 6 {
            Mark::from(number >> variable & 1 == 1)
        } else {
            Mark::Free
        }
    })
}
