// What reading a text comes to.
ghost use Rattle.std.specs.Prelude.{◌≡◌, length, Decides};
ghost use Rattle.try_texts.specs.Outcomes.{Clear, sizes_of, summary_of, Right};

use faults::fault::Refusal;
use sheet::WORDS;
use std::fmt;

// The first words of the table of a sheet, and the sizes of its weights together.
#[derive(Clone, Copy)]
pub struct Summary {
    pub parts: i32,
    pub rows: i32,
    pub priced: i32,
    pub base: i32,
    pub weights: u64,
}

impl Summary {
    fn of(table: &[i32]) -> Summary
        requires { length table.now ≡ 2668 }
        ensures { result ≡ summary_of table.now }
    {
        Summary {
            parts: table[0],
            rows: table[1],
            priced: table[3],
            base: table[2],
            weights: sizes(table),
        }
    }
}

#[derive(Clone, Copy)]
pub enum Outcome {
    Accepted(Summary),
    // with every word of the table 0
    Refused(Refusal),
    // with some word of the table not 0
    Uncleared(Refusal),
}

impl Outcome {
    // Reads the text into a table that has no word 0.
    pub fn of(text: &[u8]) -> Outcome
        ensures { Right text.now result }
    {
        let mut table = [-1; WORDS];
        match sheet::read(text, &mut table) {
            Ok(()) => Outcome::Accepted(Summary::of(&table)),
            Err(fault) => {
                if is_clear(&table) {
                    Outcome::Refused(Refusal::from(fault))
                } else {
                    Outcome::Uncleared(Refusal::from(fault))
                }
            }
        }
    }
}

// Whether every word of the table is 0.
fn is_clear(table: &[i32]) -> bool
    ensures { Decides result (Clear table.now) }
{
    table.iter().all(|word| *word == 0)
}

// The sizes of the weights together.
fn sizes(table: &[i32]) -> u64
    requires { length table.now ≡ 2668 }
    ensures { result ≡ sizes_of table.now 40 }
{
    table[4..44]
        .iter()
        .map(|weight| u64::from(weight.unsigned_abs()))
        .sum()
}

impl fmt::Display for Outcome {
    fn fmt<W: fmt::Write>(&self, f: &mut fmt::Formatter<W>) -> fmt::Result {
        match self {
            Outcome::Accepted(summary) => {
                let Summary {
                    parts,
                    rows,
                    priced,
                    base,
                    weights,
                } = *summary;
                write!(
                    f,
                    "accepted parts={parts} rows={rows} priced={priced} c0={base} S={weights}"
                )
            }
            Outcome::Refused(refusal) => write!(f, "refused {refusal}"),
            Outcome::Uncleared(refusal) => {
                write!(f, "refused {refusal} with a table that is not cleared")
            }
        }
    }
}
