// The rounds: which literals are left, and which of them are lightest.
ghost use Rattle.std.specs.Prelude.{◌≡◌, ℕ, ◌+◌, ◌<◌, false, not, if◌then◌else◌, true, ◌==◌, nat_eq};
ghost use Rattle.rules.specs.Rule.{at, size};
ghost use Rattle.rules.specs.Terms.{coefficient};
ghost use Rattle.cores.specs.Cores.{RuleIs};
ghost use Rattle.counting.specs.Counting.{count_row};
ghost use Rattle.counting.specs.Gain.{heavy};
ghost use Rattle.counting.specs.Order.{flag};
ghost use Rattle.counting.specs.Rounds.{literal_weight};
ghost use Rattle.gains.specs.Gains.{weights, LightestBelow, better};

use super::kinds::{CountRule, Round};
use rules::term::Rule;
use std::array;

// The weight of a literal under a price, given the literal's coefficient and the price's: 0 where the price has no such
// literal.
pub fn literal_weight(coefficient: i32, price: i32) -> u32
    ensures { result ≡ literal_weight coefficient price }
{
    if (coefficient < 0) == (price < 0) {
        price.unsigned_abs()
    } else {
        0
    }
}

// The variables that a core has a literal on.
pub fn literals_of(core: &Rule) -> [bool; 80]
    ensures { (i : ℕ) → i < 80 → flag result i ≡ not (size (coefficient core.now i) == 0) }
{
    array::from_fn(|i| core.coefficients[i].unsigned_abs() != 0)
}

// A core and a price, under which each of the core's literals weighs something or nothing.
#[derive(Clone, Copy)]
pub struct Weighted<'a> {
    pub core: &'a Rule,
    pub price: &'a [i32; 80],
}

impl<'a> Weighted<'a> {
    // The weight of the core's literal on a variable.
    pub fn weight_at(&self, variable: usize) -> u32
        requires { variable < 80 }
        ensures { result ≡ weights self.now.core.now (at self.now.price.now) variable }
    {
        literal_weight(self.core.coefficients[variable], self.price[variable])
    }

    // The variables that the core has a literal on.
    pub fn literals(&self) -> [bool; 80]
        ensures { (i : ℕ) → i < 80 → flag result i ≡ not (size (coefficient self.now.core.now i) == 0) }
    {
        literals_of(self.core)
    }

    // The lighter of what was found below i, and i itself, which is a member.
    fn lighter(&self, members: &[bool; 80], found: Option<usize>, i: usize) -> Option<usize>
        requires here { i < 80 }
        requires member { flag members.now i ≡ true }
        requires before { LightestBelow (weights self.now.core.now (at self.now.price.now)) (flag members.now) i found }
        ensures { LightestBelow (weights self.now.core.now (at self.now.price.now)) (flag members.now) (i + 1) result }
    {
        match found {
            Some(lightest) if self.weight_at(lightest) <= self.weight_at(i) => Some(lightest),
            _ => Some(i),
        }
    }

    // A member of smallest weight; None where there is no member.
    pub fn lightest(&self, members: &[bool; 80]) -> Option<usize>
        ensures { LightestBelow (weights self.now.core.now (at self.now.price.now)) (flag members.now) 80 result }
    {
        let mut found = None;
        for (i, member) in members.iter().enumerate() {
            if *member {
                found = self.lighter(members, found, i);
            }
        }
        found
    }

    // Whether a variable stays a member when all that weigh as much as the given one are weakened.
    fn stays(&self, members: &[bool; 80], lightest: usize, i: usize) -> bool
        requires within { lightest < 80 }
        requires here { i < 80 }
        ensures { result ≡ (if nat_eq (weights self.now.core.now (at self.now.price.now) i) (weights self.now.core.now (at self.now.price.now) lightest) then false else flag members.now i) }
    {
        self.weight_at(i) != self.weight_at(lightest) && members[i]
    }

    // The members without all those that weigh as much as the given one.
    pub fn weaken(&self, members: &[bool; 80], lightest: usize) -> [bool; 80]
        requires { lightest < 80 }
        ensures { (i : ℕ) → i < 80 → flag result i ≡ (if nat_eq (weights self.now.core.now (at self.now.price.now) i) (weights self.now.core.now (at self.now.price.now) lightest) then false else flag members.now i) }
    {
        array::from_fn(|i| self.stays(members, lightest, i))
    }

    // The coefficient of a variable in the count rule of the literals of at least this weight.
    fn unit_at(&self, weight: u32, i: usize) -> i32
        requires { i < 80 }
        ensures { result ≡ count_row (heavy (coefficient self.now.core.now) (weights self.now.core.now (at self.now.price.now)) weight) (coefficient self.now.core.now) i }
    {
        if weight <= self.weight_at(i) {
            self.core.coefficients[i].signum()
        } else {
            0
        }
    }

    // The count rule of a round.
    pub fn count_rule(&self, round: Round) -> CountRule
        ensures rule { RuleIs result.rule (count_row (heavy (coefficient self.now.core.now) (weights self.now.core.now (at self.now.price.now)) round.weight) (coefficient self.now.core.now)) round.count }
        ensures weight { result.weight ≡ round.weight }
    {
        CountRule {
            rule: Rule {
                coefficients: array::from_fn(|i| self.unit_at(round.weight, i)),
                degree: round.count,
            },
            weight: round.weight,
        }
    }
}

// The better of the best round so far and the next: the one that gains more, and of equals the first.
pub fn better(best: Option<Round>, next: Round) -> Round
    ensures { result ≡ better best next }
{
    match best {
        None => next,
        Some(round) => if round.gain() < next.gain() {
            next
        } else {
            round
        },
    }
}
