// The plain engine as a holder of rules and an engine.
ghost use Rattle.std.specs.Prelude.{◌≡◌, ℕ, ◌+◌, ◌^◌, ◌<◌, ◌≤◌, Ok};
ghost use Rattle.engine.specs.Questions.{engine_limits, empty, none, Stepped};
ghost use Rattle.store.specs.View.{held_in};
ghost use Rattle.plain.specs.Ready.{at_walk};
ghost use Rattle.plain.specs.Steps.{Adds, BrokenHere, IsClause, Reaches, Walked, asked_by};
ghost use Rattle.store.proofs.Views.{held_fits};
ghost use Rattle.std.proofs.Common.{rules};
ghost use Rattle.rules.specs.declared.Mark.TheVariants.{Free};
ghost use Rattle.plain.specs.Stepping;

use super::moves::{any_opposes, clause_row};
use super::search::{Reached, Search};
use super::state::Plain;
use super::walk::Walk;
use engine::answer::Answer;
use engine::asked::Engine;
use engine::holder::RuleHolder;
use faults::fault::EngineFault;
use rules::Mark;
use rules::term::{Literal, Rule, Term, WIDTH};
use store::assumed::Assumed;
use store::keep::Store;

impl Plain {
    // An engine of no variables, with no rules and no question.
    pub fn new() -> Plain
        ensures held { held_in result.store ≡ empty 0 }
        ensures question { asked_by result ≡ none }
    {
        Plain {
            store: Store::new(),
            asking: None,
        }
    }
}

impl Search {
    // A search that begins: nothing is marked.
    fn start(assumed: Assumed) -> Search
        ensures assumed { result.assumed ≡ assumed }
        ensures free { (i : ℕ) → at_walk result.walk i ≡ Free }
        ensures depth { result.walk.depth ≡ 0 }
    {
        Search {
            assumed,
            walk: Walk::start(),
        }
    }

    // Whether a rule or an assumed literal is broken by the marks.
    fn is_broken(&self, store: &Store) -> bool
        ensures { BrokenHere store.now self.now result }
    {
        any_opposes(&self.assumed.marks, &self.walk.marks, self.walk.depth)
            || store.first_broken(&self.walk.marks).is_some()
    }

    // One step: back to the last 0 where something is broken, else on to the next variable.
    fn step(&mut self, store: &Store) -> Reached
        ensures { Reaches store.now self.old result self.new }
    {
        if self.is_broken(store) {
            match self.walk.last_zero() {
                Some(t) => {
                    self.walk.turn(t);
                    Reached::Onward
                }
                None => Reached::Ended,
            }
        } else if self.walk.depth < store.variables {
            self.walk.deepen();
            Reached::Onward
        } else {
            Reached::Solved
        }
    }

    // The clause of all assumed literals' complements.
    fn clause(&self) -> Rule
        ensures { IsClause self.now result }
    {
        Rule {
            coefficients: clause_row(&self.assumed.marks),
            degree: 1,
        }
    }
}

impl RuleHolder for Plain {
    ghost held = { λ s. held_in s.store };

    ghost limits = { engine_limits };

    ghost adds = { Adds };

    ghost few = { Prim.search rules };

    ghost room = { Prim.search rules };

    ghost fits = { λ s k l. held_fits s.store k l };

    fn variables(&self) -> usize {
        self.store.variables
    }

    fn rules(&self) -> usize {
        self.store.count
    }

    fn rule(&self, k: usize) -> Result<Rule, EngineFault> {
        self.store.rule(k)
    }

    fn add(&mut self, terms: &[Term], degree: u32) -> Result<(), EngineFault> {
        self.store.add(terms, degree)?;
        if self.asking.is_some() {
            self.asking = None;
        }
        Ok(())
    }

    fn first_broken(&self, marks: &[Mark; 80]) -> Option<usize> {
        self.store.first_broken(marks)
    }
}

impl Engine for Plain {
    ghost question = { asked_by };

    ghost pledge = { 2 ^ 81 };

    ghost sound = { λ _. Unit {0} };

    ghost limits = { Prim.search rules };

    ghost within = { λ s sound. Stepping.within s };

    ghost add_closes = { Prim.search rules };

    ghost add_refused = { Prim.search rules };

    ghost add_sound = { Prim.search rules };

    fn begin(&mut self, variables: usize) -> Result<(), EngineFault> {
        if variables == 0 || WIDTH < variables {
            return Err(EngineFault::Variables(variables));
        }
        self.store.begin(variables);
        if self.asking.is_some() {
            self.asking = None;
        }
        Ok(())
    }

    fn grow(&mut self, by: usize) -> Result<(), EngineFault> {
        let total = self.store.variables.saturating_add(by);
        if by == 0 || WIDTH < total {
            return Err(EngineFault::Variables(total));
        }
        self.store.widen(total);
        if self.asking.is_some() {
            self.asking = None;
        }
        Ok(())
    }

    fn raise(&mut self, k: usize, degree: u32) -> Result<(), EngineFault> {
        self.store.raise(k, degree)?;
        if self.asking.is_some() {
            self.asking = None;
        }
        Ok(())
    }

    fn pose(&mut self, assumed: &[Literal]) -> Result<(), EngineFault> {
        let assumed = Assumed::of(assumed, self.store.variables)?;
        self.asking = Some(Search::start(assumed));
        Ok(())
    }

    fn step(&mut self) -> Result<Answer, EngineFault>
        ensures stepped { Stepped (held_in self.old.store) (asked_by self.old) result (held_in self.new.store) (asked_by self.new) }
        ensures walked { Walked self.old result self.new }
    {
        let store = &self.store;
        let Some(search) = &mut self.asking else {
            return Err(EngineFault::NoQuestion);
        };
        let answer = match search.step(store) {
            Reached::Onward => return Ok(Answer::Going),
            Reached::Solved => Answer::Yes(search.walk.marks),
            Reached::Ended => Answer::No(search.clause()),
        };
        self.asking = None;
        Ok(answer)
    }
}
