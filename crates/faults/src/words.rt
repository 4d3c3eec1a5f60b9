// What each fault says in words.
ghost use Rattle.std.specs.Prelude.{Some};
ghost use Rattle.faults.specs.Words.{text_words, sheet_words, run_words, engine_words, three_numbers};

use super::fault::{EngineFault, Refusal, RunFault, SheetFault, TextFault};
use std::error::Error;
use std::fmt;

impl fmt::Display for TextFault {
    ghost output = { λ e. Some (text_words e) };

    fn fmt<W: fmt::Write>(&self, f: &mut fmt::Formatter<W>) -> fmt::Result {
        match self {
            TextFault::TooLong => write!(f, "the text has more than 16,384 bytes"),
            TextFault::Misplaced(_) => write!(f, "this cannot stand here"),
            TextFault::Beyond(_) => write!(f, "this number is beyond its limits"),
            TextFault::Cut(_) => write!(f, "the text ends too early"),
        }
    }
}

impl fmt::Display for SheetFault {
    ghost output = { λ e. Some (sheet_words e) };

    fn fmt<W: fmt::Write>(&self, f: &mut fmt::Formatter<W>) -> fmt::Result {
        match self {
            SheetFault::Text(fault) => write!(f, "{fault}"),
            SheetFault::Unknown(_) => write!(f, "the sheet declares no such part"),
            SheetFault::Repeated(_) => write!(f, "this part is named before in the same sum"),
            SheetFault::Count(_) => write!(f, "the header line announces another number of rules"),
            SheetFault::NoRoom(_) => write!(
                f,
                "no row is left for this rule: a sheet has at most 64 rules, and `=` makes two"
            ),
        }
    }
}

impl fmt::Display for RunFault {
    ghost output = { λ e. Some (run_words e) };

    fn fmt<W: fmt::Write>(&self, f: &mut fmt::Formatter<W>) -> fmt::Result {
        match self {
            RunFault::Sheet(fault) => write!(f, "{fault}"),
            RunFault::TableLength => write!(f, "the table does not have 2,668 words"),
            RunFault::Layout(_) => write!(f, "this word of the table is not within its limits"),
        }
    }
}

impl fmt::Display for EngineFault {
    ghost output = { λ e. Some (engine_words e) };

    fn fmt<W: fmt::Write>(&self, f: &mut fmt::Formatter<W>) -> fmt::Result {
        match self {
            EngineFault::Variables(total) => write!(
                f,
                "{total} variables are not 1 to 80, or none would be added"
            ),
            EngineFault::Full(room) => write!(f, "no more rules than {room} can be held"),
            EngineFault::Term(index) => write!(
                f,
                "the term or literal {index}, or the degree, is out of range or repeats a variable"
            ),
            EngineFault::Rule(index) => write!(
                f,
                "there is no rule {index}, or its degree cannot become that"
            ),
            EngineFault::NoQuestion => write!(f, "no question is open"),
        }
    }
}

// The three numbers, with a blank between each two.
impl fmt::Display for Refusal {
    ghost output = { λ r. Some (three_numbers r) };

    fn fmt<W: fmt::Write>(&self, f: &mut fmt::Formatter<W>) -> fmt::Result {
        let Refusal {
            layer,
            number,
            place,
        } = *self;
        write!(f, "{layer} {number} {place}")
    }
}

impl Error for TextFault {}

impl Error for SheetFault {}

impl Error for RunFault {}

impl Error for EngineFault {}
