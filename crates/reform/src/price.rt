// The new constant and the new weights.
ghost use Rattle.std.specs.Prelude.{◌≡◌, ℕ, ◌+◌, ◌*◌, ◌^◌, ◌<◌, ◌≤◌, Decides};
ghost use Rattle.std.specs.Option.{SomeIff};
ghost use Rattle.rules.specs.Rule.{at};
ghost use Rattle.rules.specs.Terms.{coefficient};
ghost use Rattle.reform_laws.specs.Reform.{less, SuitsAt};
ghost use Rattle.reform.specs.Reforming.{needed, Limits, raised, reweighted, OutcomeOf};

use super::kinds::{Fresh, Price, Reformulation, Room, Unreformed};
use cores::core_of::sum_of;
use gains::kinds::CountRule;
use gains::rounds::literal_weight;
use rules::term::{Rule, WIDTH};
use std::array;

// The greatest weight that a variable can have.
const HEAVIEST: u32 = 2_147_483_647;

// How many fresh variables and how many rules a reformulation by this count rule needs.
pub fn needs(rule: &Rule) -> Room
    ensures { result ≡ needed rule.now }
{
    let literals = sum_of(&rule.coefficients);
    let variables = literals.saturating_sub(u64::from(rule.degree)) as usize;
    Room {
        variables,
        rules: 2 + variables.saturating_sub(1),
    }
}

// Whether a count rule's coefficient suits a price at one variable.
fn suits_at(variables: usize, weight: u32, i: usize, literal: i32, price: i32) -> bool
    ensures { Decides result (SuitsAt variables weight i literal price) }
{
    if literal == 0 {
        return i < variables || price == 0;
    }
    i < variables && literal.unsigned_abs() == 1 && weight <= literal_weight(literal, price)
}

// Whether it suits at every variable.
fn each_suits(price: &Price, variables: usize, counted: &CountRule) -> bool
    ensures { Decides result ((i : ℕ) → i < 80 → SuitsAt variables counted.now.weight i (coefficient counted.now.rule i) (at price.now.weights i)) }
{
    counted
        .rule
        .coefficients
        .iter()
        .zip(&price.weights)
        .enumerate()
        .all(|(i, (literal, price))| suits_at(variables, counted.weight, i, *literal, *price))
}

// A price, a count rule whose weight a variable can have, and its fresh variables.
#[derive(Clone, Copy)]
struct Shift<'a> {
    price: &'a Price,
    counted: &'a CountRule,
    fresh: Fresh,
    ghost small: { counted.now.weight < 2 ^ 31 },
}

impl<'a> Shift<'a> {
    // A weight without the weight of the count rule.
    fn less(&self, weight: i32) -> i32
        ensures { result ≡ less self.now.counted.now.weight weight }
    {
        let by = self.counted.weight as i32;
        if weight < 0 {
            (weight + by).min(0)
        } else {
            (weight - by).max(0)
        }
    }

    // The new weight of a variable.
    fn weight_after(&self, i: usize) -> i32
        requires { i < 80 }
        ensures { result ≡ reweighted self.now.price.now self.now.fresh.variables self.now.fresh.number self.now.counted.now i }
    {
        if self.fresh.has(i) {
            self.counted.weight as i32
        } else if self.counted.rule.coefficients[i].unsigned_abs() == 0 {
            self.price.weights[i]
        } else {
            self.less(self.price.weights[i])
        }
    }

    // The new weights: each literal of the count rule loses its weight, and each fresh variable gets it.
    fn weights_after(&self) -> [i32; 80]
        ensures { (i : ℕ) → i < 80 → at result i ≡ reweighted self.now.price.now self.now.fresh.variables self.now.fresh.number self.now.counted.now i }
    {
        array::from_fn(|i| self.weight_after(i))
    }
}

// The constant once the count's share of the weights is moved to it; None where the rule passes a limit.
fn constant_after(price: &Price, counted: &CountRule) -> Option<u64>
    ensures { SomeIff result (Limits price.now counted.now) (raised price.now counted.now) }
{
    if sum_of(&counted.rule.coefficients) < u64::from(counted.rule.degree)
        || HEAVIEST < counted.weight
    {
        return None;
    }
    price
        .constant
        .checked_add(u64::from(counted.rule.degree) * u64::from(counted.weight))
}

// A price reformulated by a count rule, where there is room for its fresh variables and its rules.
pub fn reformulate(
    price: &Price,
    variables: usize,
    counted: &CountRule,
    room: Room,
) -> Result<Reformulation, Unreformed>
    ensures { OutcomeOf price.now variables counted.now room result }
{
    if !each_suits(price, variables, counted) {
        return Err(Unreformed::Unsuited);
    }
    let constant = constant_after(price, counted).ok_or(Unreformed::Unsuited)?;
    let needed = needs(&counted.rule);
    if room.variables < needed.variables
        || room.rules < needed.rules
        || WIDTH < variables.saturating_add(needed.variables)
    {
        return Err(Unreformed::NoRoom);
    }
    let fresh = Fresh {
        variables,
        number: needed.variables,
    };
    let shift = Shift {
        price,
        counted,
        fresh,
    };
    let weights = shift.weights_after();
    Ok(Reformulation {
        price: Price { constant, weights },
        rule: counted.rule,
        variables,
        fresh: needed.variables,
    })
}
