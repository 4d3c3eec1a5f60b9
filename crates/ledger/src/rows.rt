// The rows of a table as rules.
ghost use Rattle.std.specs.Prelude.{◌≡◌, ◌<◌, ◌≤◌, length, Decides};
ghost use Rattle.rules.specs.Rule.{marked};
ghost use Rattle.engine.specs.Held.{BreaksRule};
ghost use Rattle.table.specs.Layout.{parts_of};
ghost use Rattle.ledger.specs.View.{coefficient_at, rule_at};
ghost use Rattle.ledger.specs.Taking.{Written};

use rules::Mark;
use rules::reach::sum_left;
use rules::term::Rule;
use std::array;
use table::checked::Row;
use table::{PARTS, ROW, RULES};

// The coefficient of a variable in a row: 0 past the parts.
fn coefficient_at(row: &Row, variable: usize) -> i32
    ensures { result ≡ coefficient_at row.now.sheet.words.now row.now.number variable }
{
    row.coefficients().get(variable).copied().unwrap_or(0)
}

// A row as a rule.
pub fn rule_at(row: &Row) -> Rule
    ensures { result ≡ rule_at row.now.sheet.words.now row.now.number }
{
    Rule {
        coefficients: array::from_fn(|variable| coefficient_at(row, variable)),
        degree: row.degree(),
    }
}

// Whether the marks break the rule of a row.
pub fn breaks(row: &Row, marks: &[Mark; 80]) -> bool
    ensures { Decides result (BreaksRule (parts_of row.now.sheet.words.now) (rule_at row.now.sheet.words.now row.now.number) (marked marks.now)) }
{
    let rule = rule_at(row);
    sum_left(&rule.coefficients, marks, row.sheet.parts()) < u64::from(rule.degree)
}

// Writes a rule into the row of this index.
pub fn write_row(words: &mut [i32; 2668], k: usize, degree: u32, row: &[i32; 80])
    requires there { k < 64 }
    requires small { degree ≤ 140000000 }
    ensures whole { length words.new ≡ 2668 }
    ensures written { Written words.old k degree row.now words.new }
{
    let start = RULES + ROW * k;
    words[start] = degree as i32;
    words[start + 1..start + ROW].copy_from_slice(&row[..PARTS]);
}
