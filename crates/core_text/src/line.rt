// A line of a list of cores.
ghost use Rattle.std.specs.Prelude.{◌≡◌, ℕ, ◌<◌, Some, IfOk, take};
ghost use Rattle.rules.specs.Rule.{at};
ghost use Rattle.core_text.specs.Words.{line_error_words};
ghost use Rattle.core_text.specs.Lines.{RowOf, ReadsLine};

use arrayvec::ArrayVec;
use rules::term::{Rule, WIDTH};
use std::error::Error;
use std::str::FromStr;
use std::{array, fmt};

// What is wrong with a line.
#[derive(Clone, Copy, PartialEq, Eq, Debug)]
pub enum LineError {
    // a field is missing
    Short,
    // a number is none, or beyond its limits
    Number,
    // a row has more than eighty numbers
    Long,
}

impl fmt::Display for LineError {
    ghost output = { λ e. Some (line_error_words e) };

    fn fmt<W: fmt::Write>(&self, f: &mut fmt::Formatter<W>) -> fmt::Result {
        match self {
            LineError::Short => write!(f, "a field is missing"),
            LineError::Number => write!(f, "a number is none, or beyond its limits"),
            LineError::Long => write!(f, "a row has more than eighty numbers"),
        }
    }
}

impl Error for LineError {}

// Numbers at the first places of a row. In a row that is read the other places are 0.
#[derive(Clone, Copy)]
pub struct Row {
    pub numbers: [i32; 80],
    // how many there are
    pub length: usize,
}

impl Row {
    // The whole row: its first numbers, and 0 at the other places, whatever stands there.
    pub fn places(&self) -> [i32; 80]
        ensures { (i : ℕ) → i < 80 → at result i ≡ at (take self.now.length self.now.numbers) i }
    {
        places(&self.numbers[..self.length.min(WIDTH)])
    }
}

// These first numbers, and 0 at the other places.
fn places(numbers: &[i32]) -> [i32; 80]
    ensures { (i : ℕ) → i < 80 → at result i ≡ at numbers.now i }
{
    array::from_fn(|i| numbers.get(i).copied().unwrap_or(0))
}

// Numbers with a comma between each two.
impl FromStr for Row {
    type Err = LineError;

    ghost from_str_gives = { λ text r. IfOk r (RowOf text) };

    fn from_str(list: &str) -> Result<Row, LineError> {
        let mut numbers: ArrayVec<i32, 80> = ArrayVec::new();
        for number in list.split(',') {
            let number = number.parse::<i32>().map_err(|_| LineError::Number)?;
            numbers.try_push(number).map_err(|_| LineError::Long)?;
        }
        Ok(Row {
            numbers: places(numbers.as_slice()),
            length: numbers.len(),
        })
    }
}

// A rule with the weights of its literals, and what the line says after them.
#[derive(Clone, Copy)]
pub struct Line<'a> {
    pub rule: Rule,
    pub weights: Row,
    pub rest: &'a str,
}

// Coefficients, the degree and weights, a tabulator after each, and the rest.
impl<'a> TryFrom<&'a str> for Line<'a> {
    type Error = LineError;

    ghost try_from_gives = { λ text r. IfOk r (ReadsLine text.now) };

    fn try_from(line: &'a str) -> Result<Line<'a>, LineError> {
        let (coefficients, after) = line.split_once('\t').ok_or(LineError::Short)?;
        let (degree, after) = after.split_once('\t').ok_or(LineError::Short)?;
        let (weights, rest) = after.split_once('\t').ok_or(LineError::Short)?;
        Ok(Line {
            rule: Rule {
                coefficients: coefficients.parse::<Row>()?.numbers,
                degree: degree.parse::<u32>().map_err(|_| LineError::Number)?,
            },
            weights: weights.parse::<Row>()?,
            rest,
        })
    }
}
