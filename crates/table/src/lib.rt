// A sheet as a table of words, and the check that a table has its layout.
//
// A table has 2,668 words: four that say how much there is, the weights of forty parts, and 64 rows, each a rule's
// degree and its forty coefficients. specs/Layout.antt says which word is which and what it may hold; specs/Meaning.antt
// says which choices of parts meet the sheet, and what a choice costs.
#![tactic(auto)]

ghost use Rattle.std.specs.Prelude.{◌≡◌, ◌<◌, MatchBool};
ghost use Rattle.table.specs.Layout.{limits_of, Fine, Verdict};

pub mod checked;
pub mod place;
mod reads;

use faults::fault::RunFault;
use place::{Limits, Place};

// The words of a table.
pub const WORDS: usize = 2668;
// The parts that a table has room for, the rules, and the words of a rule.
pub const PARTS: usize = 40;

pub const ROWS: usize = 64;

pub const ROW: usize = 41;
// Where the weights begin, and the rows.
pub const WEIGHTS: usize = 4;

pub const RULES: usize = 44;

// The greatest degree, and the greatest size of a coefficient, of a weight and of what is taken from the price before
// the weights are added.
pub const MOST_DEGREE: i32 = 140_000_000;

pub const MOST_COEFFICIENT: i32 = 1_000_000;

pub const MOST_WEIGHT: i32 = 100_000;

pub const MOST_BASE: i32 = 4_000_000;

// The limits of a word with this place. They are 0 and 0 where the table has no such part, rule or price line.
fn limits(table: &[i32; WORDS], place: Place) -> Limits
    ensures { result ≡ limits_of table.now place }
{
    let parts = table[0].unsigned_abs() as usize;
    let rules = table[1].unsigned_abs() as usize;
    let priced = table[3].unsigned_abs() != 0;
    let (least, most) = match place {
        Place::Parts => (1, PARTS as i32),
        Place::Rules => (0, ROWS as i32),
        Place::Base if priced => (-MOST_BASE, 0),
        Place::Priced => (0, 1),
        Place::Weight(part) if priced && part < parts => (-MOST_WEIGHT, MOST_WEIGHT),
        Place::Degree(rule) if rule < rules => (0, MOST_DEGREE),
        Place::Coefficient(rule, part) if rule < rules && part < parts => (
            -MOST_COEFFICIENT,
            MOST_COEFFICIENT,
        ),
        _ => (0, 0),
    };
    Limits { least, most }
}

// Whether this word of the table is not within its limits.
fn is_bad(table: &[i32; WORDS], word: usize) -> bool
    requires { word < 2668 }
    ensures { MatchBool result (Fine table.now word → ⊥) (Fine table.now word) }
{
    !limits(table, Place::from(word)).holds(table[word])
}

// Refuses a table of another length, and else the first word that is not within its limits.
pub fn check(table: &[i32]) -> Result<(), RunFault>
    ensures { Verdict table.now result }
{
    let Ok(table) = <&[i32; WORDS]>::try_from(table) else {
        return Err(RunFault::TableLength);
    };
    match (0..WORDS).find(|word| is_bad(table, *word)) {
        Some(word) => Err(RunFault::Layout(word)),
        None => Ok(()),
    }
}
