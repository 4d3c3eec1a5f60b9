// An engine around any engine that poses each question twice, and gives the second answer.
//
// It shows that the meaning of engines is enough to build one upon another: the literals that it keeps for the second round
// must be those of the open question of the engine inside, which is why engines have `sound`.
#![tactic(auto)]

ghost use Rattle.std.specs.Prelude.{◌≡◌, ℕ, ◌+◌, Ok, Err};
ghost use Rattle.std.proofs.Common.{ap, ◌∙◌, rules};
ghost use Rattle.twice.specs.Rounds.{in_round, Agrees};
ghost use Rattle.twice.specs.Agreeing.{agrees_closed, agrees_kept};

use engine::answer::Answer;
use engine::asked::Engine;
use engine::holder::RuleHolder;
use faults::fault::EngineFault;
use rules::Mark;
use rules::term::{Literal, Rule, Term};
use store::assumed::Assumed;

// Which of the two times an open question is asked.
#[derive(Clone, Copy, PartialEq, Eq, Debug)]
pub enum Round {
    First,
    Second,
}

#[derive(Drop)]
pub struct Twice<E: Engine> {
    inner: E,
    assumed: Assumed,
    round: Round,
}

impl<E: Engine> Twice<E> {
    // The engine around this one.
    pub fn over(inner: E) -> Twice<E>
        ensures { result.inner ≡ inner }
    {
        Twice {
            inner,
            assumed: Assumed::nothing(),
            round: Round::First,
        }
    }
}

impl<E: Engine> RuleHolder for Twice<E> {
    ghost held = { λ s. E.RuleHolder.held s.inner };

    ghost limits = { E.RuleHolder.limits };

    ghost adds = { λ s r t. E.RuleHolder.adds s.inner r t.inner × (t.assumed ≡ s.assumed) × (t.round ≡ s.round) × ((E.RuleHolder.held t.inner).variables ≡ (E.RuleHolder.held s.inner).variables) };

    ghost few = { Prim.search rules };

    ghost room = { Prim.search rules };

    ghost fits = { Prim.search rules };

    fn variables(&self) -> usize {
        self.inner.variables()
    }

    fn rules(&self) -> usize {
        self.inner.rules()
    }

    fn rule(&self, k: usize) -> Result<Rule, EngineFault> {
        self.inner.rule(k)
    }

    fn add(&mut self, terms: &[Term], degree: u32) -> Result<(), EngineFault> {
        self.inner.add(terms, degree)
    }

    fn first_broken(&self, marks: &[Mark; 80]) -> Option<usize> {
        self.inner.first_broken(marks)
    }
}

impl<E: Engine> Engine for Twice<E> {
    ghost question = { λ s. in_round s.round E.Engine.pledge (E.Engine.question s.inner) };

    ghost pledge = { E.Engine.pledge + E.Engine.pledge };

    ghost sound = { λ s. E.Engine.sound s.inner × Agrees s.assumed (E.RuleHolder.held s.inner) (E.Engine.question s.inner) };

    ghost limits = { Prim.search rules };

    ghost within = { Prim.search rules };

    ghost add_closes = { Prim.search rules };

    ghost add_refused = { λ s t e h.
        ap (λ b. in_round b E.Engine.pledge (E.Engine.question t.inner)) h.2
        ∙ ap (in_round s.round E.Engine.pledge) (E.Engine.add_refused s.inner t.inner e h.0) };

    ghost add_sound = { λ s t.
        elim [
          | Ok u ↦
              λ h k. (
                E.Engine.add_sound s.inner t.inner (Ok u) h.0 k.0,
                agrees_closed t.assumed (E.RuleHolder.held t.inner) (E.Engine.question t.inner) (E.Engine.add_closes s.inner t.inner u h.0),
              )
          | Err e ↦
              λ h k. (
                E.Engine.add_sound s.inner t.inner (Err e) h.0 k.0,
                agrees_kept s.assumed t.assumed (E.RuleHolder.held s.inner) (E.RuleHolder.held t.inner) (E.Engine.question s.inner) (E.Engine.question t.inner)
                    h.1 h.3 (E.Engine.add_refused s.inner t.inner e h.0) k.1,
              )
        ] };

    fn begin(&mut self, variables: usize) -> Result<(), EngineFault> {
        self.inner.begin(variables)
    }

    fn grow(&mut self, by: usize) -> Result<(), EngineFault> {
        self.inner.grow(by)
    }

    fn raise(&mut self, k: usize, degree: u32) -> Result<(), EngineFault> {
        self.inner.raise(k, degree)
    }

    fn pose(&mut self, assumed: &[Literal]) -> Result<(), EngineFault> {
        let taken = Assumed::of(assumed, self.inner.variables())?;
        self.inner.pose(assumed)?;
        self.assumed = taken;
        self.round = Round::First;
        Ok(())
    }

    fn step(&mut self) -> Result<Answer, EngineFault> {
        match (self.inner.step()?, self.round) {
            (Answer::Going, _) => Ok(Answer::Going),
            (answer, Round::Second) => Ok(answer),
            (_, Round::First) => {
                self.round = Round::Second;
                let assumed = &self.assumed;
                self.inner.pose(&assumed.literals[..assumed.count])?;
                Ok(Answer::Going)
            }
        }
    }
}
