// Engines: holders of rules that can also be questioned.
ghost use Rattle.std.specs.Prelude.{◌≡◌, ℕ, Ok, Err, Result as Outcome};
ghost use Rattle.faults.specs.declared.fault.EngineFault.{EngineFault as Fault};
ghost use Rattle.engine.specs.Questions.{Question, none, engine_limits, WithinPledge, Begun, Grown, Raised, Posed, Stepped};

use crate::answer::Answer;
use crate::holder::RuleHolder;
use faults::fault::EngineFault;
use rules::term::Literal;

pub trait Engine: RuleHolder {
    // the open question, with the steps that are left for it
    ghost question: { Self → Question };

    // Q: the most steps that any question takes
    ghost pledge: { ℕ };

    // what an engine keeps between its calls, where it depends on what an engine inside it means; `begin` gives it, every
    // call keeps it, and a step is promised under it
    ghost sound: { Self → Type 0 };

    // Starts again with so many variables, no rules and no question.
    fn begin(&mut self, variables: usize) -> Result<(), EngineFault>
        ensures begun { Begun variables (Self.RuleHolder.held self.old) (question self.old) result (Self.RuleHolder.held self.new) (question self.new) }
        ensures sound { result ≡ Ok tt → sound self.new }
        ensures kept { sound self.old → sound self.new };

    // So many variables more. It closes the question.
    fn grow(&mut self, by: usize) -> Result<(), EngineFault>
        ensures grown { Grown by (Self.RuleHolder.held self.old) (question self.old) result (Self.RuleHolder.held self.new) (question self.new) }
        ensures kept { sound self.old → sound self.new };

    // Lifts the degree of rule k. It closes the question.
    fn raise(&mut self, k: usize, degree: u32) -> Result<(), EngineFault>
        ensures raised { Raised engine_limits k degree (Self.RuleHolder.held self.old) (question self.old) result (Self.RuleHolder.held self.new) (question self.new) }
        ensures kept { sound self.old → sound self.new };

    // Opens a question: is there a marking that meets the rules and makes these literals true?
    fn pose(&mut self, assumed: &[Literal]) -> Result<(), EngineFault>
        ensures posed { Posed pledge assumed.now (Self.RuleHolder.held self.old) (question self.old) result (Self.RuleHolder.held self.new) (question self.new) }
        ensures kept { sound self.old → sound self.new };

    // One step towards the answer.
    fn step(&mut self) -> Result<Answer, EngineFault>
        ensures stepped { sound self.old → Stepped (Self.RuleHolder.held self.old) (question self.old) result (Self.RuleHolder.held self.new) (question self.new) }
        ensures kept { sound self.old → sound self.new };

    ghost limits: { Self.RuleHolder.limits ≡ engine_limits };

    ghost within: { (s : Self) → sound s → WithinPledge pledge (question s) };

    ghost add_closes: { (s t : Self) (u : Unit {0}) → Self.RuleHolder.adds s (Ok u) t → question t ≡ none };

    ghost add_refused: { (s t : Self) (e : Fault) → Self.RuleHolder.adds s (Err e) t → question t ≡ question s };

    ghost add_sound: { (s t : Self) (r : Outcome Unit Fault) → Self.RuleHolder.adds s r t → sound s → sound t };
}
