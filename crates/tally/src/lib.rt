// How many things of a list were tried, and how many agree with what the list expects.
#![tactic(auto)]

ghost use Rattle.std.specs.Prelude.{◌≡◌, ◌+◌, ◌-◌, ◌^◌, ◌<◌, ◌≤◌, ◌==◌, Some, min, if◌then◌else◌, IfOk};
ghost use Rattle.std.specs.Str.Lines.{lines};
ghost use Rattle.tally.specs.Tallies.{is_remark, tally_words, written};

use std::fmt;

#[derive(Clone, Copy)]
pub struct Tally {
    // what is tried, as `texts`
    pub things: &'static str,
    pub tried: u32,
    pub agree: u32,
    ghost some: { agree ≤ tried },
}

impl Tally {
    pub fn new(things: &'static str) -> Tally
        ensures things { result.things.now ≡ things.now }
        ensures none { result.tried ≡ 0 }
    {
        Tally {
            things,
            tried: 0,
            agree: 0,
        }
    }

    // Counts one more thing, as far as the number goes.
    pub fn count(&mut self, agrees: bool)
        ensures things { self.new.things.now ≡ self.old.things.now }
        ensures tried { self.new.tried ≡ min (self.old.tried + 1) (2 ^ 32 - 1) }
        ensures agree { self.old.tried < 2 ^ 32 - 1 → self.new.agree ≡ self.old.agree + (if agrees then 1 else 0) }
        ensures full { self.old.tried ≡ 2 ^ 32 - 1 → self.new.agree ≡ self.old.agree }
    {
        if self.tried < u32::MAX {
            self.tried += 1;
            if agrees {
                self.agree += 1;
            }
        }
    }

    // Whether all of them agree.
    pub fn is_whole(&self) -> bool
        ensures { result ≡ (self.now.agree == self.now.tried) }
    {
        self.agree == self.tried
    }
}

impl fmt::Display for Tally {
    ghost output = { λ t. Some (tally_words t.things.now t.tried t.agree) };

    fn fmt<W: fmt::Write>(&self, f: &mut fmt::Formatter<W>) -> fmt::Result {
        let Tally {
            things,
            tried,
            agree,
        } = *self;
        write!(f, "{tried} {things}, {agree} agree")
    }
}

// Whether a line of a list holds nothing but a remark.
pub fn is_remark(line: &str) -> bool
    ensures { result ≡ is_remark line.now }
{
    line.is_empty() || line.starts_with('#')
}

// Compares every line of a list that is no remark.
pub fn compared<F: FnMut(&str) -> anyhow::Result<bool>>(
    things: &'static str,
    list: &str,
    mut compare: F,
) -> anyhow::Result<Tally>
    requires { F.IsAlwaysCallable compare }
    ensures things { IfOk result (λ t. t.things.now ≡ things.now) }
    ensures tried { IfOk result (λ t. t.tried ≡ min (written (lines list.now)) (2 ^ 32 - 1)) }
{
    let mut tally = Tally::new(things);
    for line in list.lines() {
        if !is_remark(line) {
            tally.count(compare(line)?);
        }
    }
    Ok(tally)
}
