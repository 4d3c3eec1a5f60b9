// Holders of rules: the sheet is one, and every engine.
ghost use Rattle.std.specs.Prelude.{◌≡◌, ℕ, ◌<◌, ◌≤◌, length, Result as Outcome};
ghost use Rattle.faults.specs.declared.fault.EngineFault.{EngineFault as Fault};
ghost use Rattle.engine.specs.Held.{Held, Limits, Fits, nth, Copied, FirstBroken, Added};

use faults::fault::EngineFault;
use rules::Mark;
use rules::term::{Rule, Term};

pub trait RuleHolder {
    // the number of variables, and the rules in the order in which they were added
    ghost held: { Self → Held };

    // how many rules it takes, and how large their coefficients and degrees may be
    ghost limits: { Limits };

    // what an add does besides, in the terms of whoever builds on holders: an engine closes its question
    ghost adds: { Self → Outcome Unit Fault → Self → Type 0 };

    // The number of variables.
    fn variables(&self) -> usize
        ensures { result ≡ (held self.now).variables };

    // The number of rules.
    fn rules(&self) -> usize
        ensures { result ≡ length (held self.now).rules };

    // Rule k, counted from 0.
    fn rule(&self, k: usize) -> Result<Rule, EngineFault>
        ensures { Copied (held self.now) k result };

    // One rule more, at the end.
    fn add(&mut self, terms: &[Term], degree: u32) -> Result<(), EngineFault>
        ensures added { Added limits (held self.old) terms.now degree result (held self.new) }
        ensures adds { adds self.old result self.new };

    // The first rule that the marks break. Marks past the variables are not looked at.
    fn first_broken(&self, marks: &[Mark; 80]) -> Option<usize>
        ensures { FirstBroken (held self.now) marks.now result };

    ghost few: { (s : Self) → (held s).variables ≤ 80 };

    ghost room: { (s : Self) → length (held s).rules ≤ limits.room };

    ghost fits: { (s : Self) (k : ℕ) → k < length (held s).rules → Fits limits (held s).variables (nth (held s).rules k) };
}
