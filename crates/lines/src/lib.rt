// Reading the lines of a sheet: sums, the header, the price line and rules.
#![tactic(auto)]

ghost use Rattle.std.specs.Prelude.{◌≡◌, ℕ, ◌+◌, ◌-◌, ◌<◌, ◌≤◌, length, IfOk};
ghost use Rattle.text.specs.Reading.{Step, told, seen};
ghost use Rattle.lines.specs.Lines.{empty, numbers, placed, Part, Named, Term, goes_on, limit_of, Terms, Announced, HeaderLine, PriceLine, Compared, rows_for, Fitting, Bound, RuleAfter};

pub mod line;

use faults::fault::{SheetFault, TextFault};
use line::{Comparison, Header, Line, MOST_PARTS, Parts, Rule, Sum};
use text::reader::{Class, Limit, Reader, Sign};

impl Sum {
    pub fn new() -> Sum
        ensures { result ≡ empty }
    {
        Sum {
            terms: [None; MOST_PARTS],
        }
    }

    // Gives the part, which is named at `at`, its coefficient, unless the sum names it already.
    pub fn place(&mut self, part: usize, coefficient: i32, at: usize) -> Result<(), SheetFault>
        requires { (0 < part) × (part ≤ 40) }
        ensures { told self.new result ≡ placed self.old at coefficient part }
    {
        let k = part - 1;
        if self.terms[k].is_some() {
            return Err(SheetFault::Repeated(at));
        }
        self.terms[k] = Some(coefficient);
        Ok(())
    }
}

impl Line {
    // The limits of the line's coefficients.
    fn limit(self) -> Limit
        ensures { result ≡ limit_of self }
    {
        match self {
            Line::Price => Limit::Price,
            Line::Rule => Limit::Coefficient,
        }
    }

    // Does a sum of this line go on here?
    fn goes_on(self, reader: &Reader) -> bool
        ensures { result ≡ goes_on reader.now.text.now self reader.now.at }
    {
        match self {
            Line::Price => !reader.stands_at(b';'),
            Line::Rule => !reader.stands_at(b'>') && !reader.stands_at(b'='),
        }
    }
}

// What follows reads from a reader that the parts are passed beside: one that knew them would have to promise in each
// contract that it keeps them.

// The name of one of the parts.
fn part(reader: &mut Reader, parts: Parts) -> Result<usize, SheetFault>
    ensures reads { Step (λ t. Part t parts.number) reader.old reader.new result }
    ensures known { IfOk result (λ k. (0 < k) × (k ≤ 40)) }
{
    let at = reader.at;
    let part = reader.name()?.index();
    if (1..=parts.number).contains(&part) {
        Ok(part)
    } else {
        Err(SheetFault::Unknown(at))
    }
}

// What follows a term's coefficient: the name of a part that the sum does not name yet, with the blanks around it.
fn named(
    reader: &mut Reader,
    parts: Parts,
    coefficient: i32,
    sum: &mut Sum,
) -> Result<(), SheetFault>
    ensures { Step (λ t. Named t parts.number coefficient sum.old) reader.old reader.new (told sum.new result) }
{
    reader.pass(Class::Blank); // before the name
    let at = reader.at;
    let part = part(reader, parts)?;
    sum.place(part, coefficient, at)?;
    reader.pass(Class::Blank);
    Ok(())
}

// One more term.
fn term(reader: &mut Reader, parts: Parts, line: Line, sum: &mut Sum) -> Result<(), SheetFault>
    ensures { Step (λ t. Term t parts.number line sum.old) reader.old reader.new (told sum.new result) }
{
    let limit = line.limit();
    let coefficient = reader.value(limit)?;
    named(reader, parts, coefficient, sum)
}

// A sum whose first coefficient is read already.
pub fn terms(reader: &mut Reader, parts: Parts, line: Line, first: i32) -> Result<Sum, SheetFault>
    ensures { Step (λ t. Terms t parts.number line first) reader.old reader.new result }
{
    let mut sum = Sum::new();
    named(reader, parts, first, &mut sum)?;
    while line.goes_on(reader) {
        term(reader, parts, line, &mut sum)?;
    }
    Ok(sum)
}

// A fixed spelling and a number.
fn announced(reader: &mut Reader, sign: Sign, limit: Limit) -> Result<i32, TextFault>
    ensures { Step (λ t. Announced t sign limit) reader.old reader.new result }
{
    reader.sign(sign)?;
    reader.pass(Class::Blank);
    reader.value(limit)
}

// The header: the numbers of parts and of rules, and the rest of the line.
pub fn header(reader: &mut Reader) -> Result<Header, TextFault>
    ensures { Step HeaderLine reader.old reader.new (seen numbers result) }
{
    let parts = announced(reader, Sign::Variables, Limit::Parts)?;
    reader.pass(Class::Blank);
    let rules = announced(reader, Sign::Constraints, Limit::Rules)?;
    reader.line()?;
    Ok(Header {
        parts: Parts {
            number: parts.unsigned_abs() as usize,
        },
        rules: rules.unsigned_abs() as usize,
    })
}

// The price line.
pub fn price_line(reader: &mut Reader, parts: Parts) -> Result<Sum, SheetFault>
    ensures { Step (λ t. PriceLine t parts.number) reader.old reader.new result }
{
    let first = announced(reader, Sign::Minimise, Limit::Price)?;
    let sum = terms(reader, parts, Line::Price, first)?;
    reader.sign(Sign::End)?;
    Ok(sum)
}

// A comparison sign.
fn compared(reader: &mut Reader) -> Result<Comparison, TextFault>
    ensures { Step Compared reader.old reader.new result }
{
    if reader.stands_at(b'>') {
        reader.sign(Sign::AtLeast)?;
        Ok(Comparison::AtLeast)
    } else {
        reader.sign(Sign::Equal)?;
        Ok(Comparison::Equal)
    }
}

impl Comparison {
    // How many rows of the table a rule takes.
    pub fn rows(self) -> usize
        ensures { result ≡ rows_for self }
    {
        match self {
            Comparison::AtLeast => 1,
            Comparison::Equal => 2,
        }
    }
}

// A comparison sign of a rule that finds its rows among the `room` that are left.
fn fitting(reader: &mut Reader, room: usize) -> Result<Comparison, SheetFault>
    ensures reads { Step (λ t. Fitting t room) reader.old reader.new result }
    ensures room { IfOk result (λ c. rows_for c ≤ room) }
{
    let at = reader.at;
    let comparison = compared(reader)?;
    if room < comparison.rows() {
        return Err(SheetFault::NoRoom(at));
    }
    Ok(comparison)
}

// The right side, up to the end of the rule.
fn bound(reader: &mut Reader) -> Result<i32, TextFault>
    ensures { Step Bound reader.old reader.new result }
{
    reader.pass(Class::Blank);
    let bound = reader.value(Limit::RightSide)?;
    reader.pass(Class::Blank);
    reader.sign(Sign::End)?;
    Ok(bound)
}

// A rule whose first coefficient is read already, and for which `room` rows are left.
pub fn rule_after(
    reader: &mut Reader,
    parts: Parts,
    room: usize,
    first: i32,
) -> Result<Rule, SheetFault>
    ensures reads { Step (λ t. RuleAfter t parts.number room first) reader.old reader.new result }
    ensures room { IfOk result (λ q. rows_for q.comparison ≤ room) }
{
    let sum = terms(reader, parts, Line::Rule, first)?;
    let comparison = fitting(reader, room)?;
    let bound = bound(reader)?;
    Ok(Rule {
        sum,
        comparison,
        bound,
    })
}
