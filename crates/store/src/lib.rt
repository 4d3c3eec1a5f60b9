// The rules of an engine: what both engines do alike.
#![tactic(auto)]

ghost use Rattle.std.specs.Prelude.{◌≡◌, ℕ, ◌+◌, ◌<◌, ◌≤◌, min, false, length, is_ok, Decides, Result as Outcome, MatchOption, slice_index_or};
ghost use Rattle.faults.specs.declared.fault.EngineFault.{EngineFault as Fault};
ghost use Rattle.rules.specs.Rule.{marked};
ghost use Rattle.rules.specs.Terms.{row_of, signed};
ghost use Rattle.engine.specs.Held.{Held, Copied, FirstBroken, Added, BreaksRule, blank, no_term, GoodTerm, FirstBad, Every};
ghost use Rattle.engine.specs.Questions.{engine_limits, empty, with_variables, CanRaise, with_raised};
ghost use Rattle.store.specs.View.{held_in, Raises};

pub mod assume;
pub mod assumed;
pub mod keep;
mod stands;

use faults::fault::EngineFault;
use keep::Store;
use rules::Mark;
use rules::reach::sum_left;
use rules::term::{Rule, Term, WIDTH};
use stands::stands_alone;

// The most rules that an engine holds, and the greatest coefficient and degree.
pub const ROOM: usize = 160;

pub const MOST: u32 = 1_000_000_000;

// Whether the term of this index is within the limits, and its variable is one of those that are there and in no term
// before it.
fn is_good(terms: &[Term], i: usize, variables: usize, most: u32) -> bool
    requires { i < length terms.now }
    ensures { Decides result (GoodTerm most variables terms.now i) }
{
    let coefficient = terms[i].coefficient;
    0 < coefficient && coefficient <= most && stands_alone(terms, i, variables)
}

// The first term that is not good.
pub fn bad_term(terms: &[Term], variables: usize, most: u32) -> Option<usize>
    ensures { MatchOption result (Every (GoodTerm most variables terms.now) (length terms.now)) (λ i. FirstBad (GoodTerm most variables terms.now) (length terms.now) i) }
{
    (0..terms.len()).find(
        |&i|
            requires { i < length terms.now }
        { !is_good(terms, i, variables, most) },
    )
}

// The coefficient of a term, negative on the complement.
fn signed_coefficient(term: Term) -> i32
    requires { term.coefficient ≤ 1000000000 }
    ensures { result ≡ signed term }
{
    let coefficient = term.coefficient as i32;
    if term.literal.negated {
        -coefficient
    } else {
        coefficient
    }
}

// The row of good terms.
pub fn row(terms: &[Term], variables: usize, most: u32) -> [i32; 80]
    requires good { Every (GoodTerm most variables terms.now) (length terms.now) }
    requires few { variables ≤ 80 }
    requires small { most ≤ 1000000000 }
    ensures { result ≡ row_of terms.now }
{
    let mut row = [0; WIDTH];
    for term in terms {
        row[term.literal.variable] = signed_coefficient(*term);
    }
    row
}

// Whether the marks of so many variables break the rule.
fn breaks(rule: &Rule, variables: usize, marks: &[Mark; 80]) -> bool
    requires { variables ≤ 80 }
    ensures { Decides result (BreaksRule variables rule.now (marked marks.now)) }
{
    sum_left(&rule.coefficients, marks, variables) < u64::from(rule.degree)
}

impl Store {
    // A store of no variables and no rules.
    pub fn new() -> Store
        ensures { held_in result ≡ empty 0 }
    {
        Store {
            variables: 0,
            count: 0,
            rules: [Rule::default(); ROOM],
        }
    }

    // Starts again with so many variables and no rules.
    pub fn begin(&mut self, variables: usize)
        requires { variables ≤ 80 }
        ensures { held_in self.new ≡ empty variables }
    {
        self.variables = variables;
        self.count = 0;
    }

    // So many variables in all, which are no fewer than before.
    pub fn widen(&mut self, variables: usize)
        requires few { variables ≤ 80 }
        requires more { self.old.variables ≤ variables }
        ensures { held_in self.new ≡ with_variables variables (held_in self.old) }
    {
        self.variables = variables;
    }

    // Rule k.
    pub fn rule(&self, k: usize) -> Result<Rule, EngineFault>
        ensures { Copied (held_in self.now) k result }
    {
        self.rules[..self.count]
            .get(k)
            .copied()
            .ok_or(EngineFault::Rule(k))
    }

    // The first rule that the marks break.
    pub fn first_broken(&self, marks: &[Mark; 80]) -> Option<usize>
        ensures { FirstBroken (held_in self.now) marks.now result }
    {
        let variables = self.variables;
        self.rules[..self.count]
            .iter()
            .position(|rule| breaks(rule, variables, marks))
    }

    // Lifts the degree of rule k.
    pub fn raise(&mut self, k: usize, degree: u32) -> Result<(), EngineFault>
        ensures raised { Raises k degree (held_in self.old) result (held_in self.new) }
        ensures refused { is_ok result ≡ false → self.new ≡ self.old }
    {
        if k >= self.count || degree < self.rules[k].degree || MOST < degree {
            return Err(EngineFault::Rule(k));
        }
        self.rules[k].degree = degree;
        Ok(())
    }

    // One rule more, at the end.
    pub fn add(&mut self, terms: &[Term], degree: u32) -> Result<(), EngineFault>
        ensures added { Added engine_limits (held_in self.old) terms.now degree result (held_in self.new) }
        ensures refused { is_ok result ≡ false → self.new ≡ self.old }
    {
        if self.count >= ROOM {
            return Err(EngineFault::Full(ROOM));
        }
        if let Some(i) = bad_term(terms, self.variables, MOST) {
            return Err(EngineFault::Term(i));
        }
        if MOST < degree {
            return Err(EngineFault::Term(terms.len()));
        }
        self.rules[self.count] = Rule {
            coefficients: row(terms, self.variables, MOST),
            degree,
        };
        self.count += 1;
        Ok(())
    }
}
