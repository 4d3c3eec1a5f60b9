// How far the rules of a sheet are written into its table.
ghost use Rattle.std.specs.Prelude.{◌≡◌, ℕ, ◌+◌, ◌-◌, ◌≤◌};
ghost use Rattle.lines.specs.Lines.{rows_for};

use lines::line::Rule;

// So many rules are written, each in one row of the table or in two.
#[derive(Clone, Copy)]
pub struct Progress {
    pub rules: usize,
    pub rows: usize,
    ghost each: { rules ≤ rows },
    ghost few: { rows ≤ 64 },
}

impl Progress {
    // No rule is written yet.
    pub fn new() -> Progress
        ensures { (result.rules ≡ 0) × (result.rows ≡ 0) }
    {
        Progress { rules: 0, rows: 0 }
    }

    // One more rule is written.
    pub fn with(self, rule: &Rule) -> Progress
        requires { rows_for rule.now.comparison ≤ 64 - self.rows }
        ensures rules { result.rules ≡ self.rules + 1 }
        ensures rows { result.rows ≡ self.rows + rows_for rule.now.comparison }
    {
        Progress {
            rules: self.rules + 1,
            rows: self.rows + rule.comparison.rows(),
        }
    }
}
