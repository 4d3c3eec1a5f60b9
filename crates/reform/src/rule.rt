// The rules that tie the fresh variables to the literals of the count rule, read off one by one.
ghost use Rattle.std.specs.Prelude.{◌≡◌, ℕ, ◌+◌, ◌<◌};
ghost use Rattle.rules.specs.Rule.{at};
ghost use Rattle.reform_laws.specs.Reform.{rules_needed, turned, order_row};
ghost use Rattle.reform.specs.Reforming.{nth, new_row, new_degree, Among, NewRuleAt};

use super::kinds::{Fresh, NewRule, Reformulation};
use rules::term::Rule;
use std::array;

// The new rule of this number, from 0.
fn nth(k: usize) -> NewRule
    ensures { result ≡ nth k }
{
    match k {
        0 => NewRule::AtLeast,
        1 => NewRule::AtMost,
        _ => NewRule::Order(k - 2),
    }
}

// A term of coefficient 1 on the complement.
fn turned(coefficient: i32) -> i32
    ensures { result ≡ turned coefficient }
{
    -coefficient.signum()
}

// The coefficient of a variable in the rule that puts two neighbours among the fresh variables in order.
fn in_order(variables: usize, j: usize, i: usize) -> i32
    requires { variables + j < 80 }
    ensures { result ≡ order_row variables j i }
{
    if i == variables + j {
        1
    } else if i == variables + j + 1 {
        -1
    } else {
        0
    }
}

impl Reformulation {
    // Its fresh variables.
    fn fresh_ones(&self) -> Fresh
        ensures variables { result.variables ≡ self.now.variables }
        ensures number { result.number ≡ self.now.fresh }
    {
        Fresh {
            variables: self.variables,
            number: self.fresh,
        }
    }

    // The coefficient of a variable in a new rule.
    fn coefficient_in(&self, kind: NewRule, i: usize) -> i32
        requires here { i < 80 }
        requires among { Among self.now.fresh kind }
        ensures { result ≡ new_row self.now.rule self.now.variables self.now.fresh kind i }
    {
        let fresh = self.fresh_ones().has(i);
        match kind {
            NewRule::AtLeast => if fresh { -1 } else { self.rule.coefficients[i] },
            NewRule::AtMost => if fresh {
                1
            } else {
                turned(self.rule.coefficients[i])
            },
            NewRule::Order(j) => in_order(self.variables, j, i),
        }
    }

    // The coefficients of a new rule.
    fn row(&self, kind: NewRule) -> [i32; 80]
        requires { Among self.now.fresh kind }
        ensures { (i : ℕ) → i < 80 → at result i ≡ new_row self.now.rule self.now.variables self.now.fresh kind i }
    {
        array::from_fn(|i| self.coefficient_in(kind, i))
    }

    // The degree of a new rule.
    fn degree(&self, kind: NewRule) -> u32
        ensures { result ≡ new_degree self.now.rule self.now.fresh kind }
    {
        match kind {
            NewRule::AtLeast => self.rule.degree + self.fresh as u32,
            NewRule::AtMost => self.fresh as u32,
            NewRule::Order(_) => 1,
        }
    }

    // How many new rules there are.
    pub fn rules(&self) -> usize
        ensures { result ≡ rules_needed self.now.fresh }
    {
        2 + self.fresh.saturating_sub(1)
    }

    // The k-th new rule, from 0.
    pub fn new_rule(&self, k: usize) -> Option<Rule>
        ensures { NewRuleAt self.now k result }
    {
        if self.rules() <= k {
            return None;
        }
        let kind = nth(k);
        Some(Rule {
            coefficients: self.row(kind),
            degree: self.degree(kind),
        })
    }
}
