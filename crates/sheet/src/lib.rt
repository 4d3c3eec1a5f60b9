// Reading a whole sheet into its table.
#![tactic(auto)]

ghost use Rattle.std.specs.Prelude.{◌≡◌, ℕ, ◌+◌, ◌-◌, ◌<◌, ◌≤◌, length, IfOk};
ghost use Rattle.text.specs.Reading.{Step};
ghost use Rattle.lines.specs.Lines.{numbers, rows_for};
ghost use Rattle.sheet.specs.Reads.{RulesRead, Zeros, BodyRead, TextRead, Settled, Reading};
ghost use Rattle.opb.specs.Sheets.{Price, RuleLine};

mod progress;

use faults::fault::{RunFault, SheetFault};
use lines::line::{Header, Parts, Rule, Sum};
use progress::Progress;
use rows::ROWS;
use text::reader::{Limit, Reader};

// The words of a table.
pub const WORDS: usize = rows::WORDS;

// The price line, if one stands here, with the gap after it.
fn price(reader: &mut Reader, parts: Parts) -> Result<Option<Sum>, SheetFault>
    ensures { Step (λ t. Price t parts.number) reader.old reader.new result }
{
    if !reader.stands_at(b'm') {
        return Ok(None);
    }
    let sum = lines::price_line(reader, parts)?;
    reader.gap();
    Ok(Some(sum))
}

// A rule after those that are written, with the gap after it.
fn rule_line(reader: &mut Reader, header: Header, progress: Progress) -> Result<Rule, SheetFault>
    ensures reads { Step (λ t. RuleLine t (numbers header) progress.rules progress.rows) reader.old reader.new result }
    ensures room { IfOk result (λ q. rows_for q.comparison ≤ 64 - progress.rows) }
{
    let at = reader.at;
    let first = reader.value(Limit::Coefficient)?;
    if progress.rules >= header.rules {
        return Err(SheetFault::Count(at));
    }
    let rule = lines::rule_after(reader, header.parts, ROWS - progress.rows, first)?;
    reader.gap();
    Ok(rule)
}

// The reader, the header and the table are passed side by side: one struct of them would hold two borrows, and a contract
// would name its fields.

// Rules up to the end of the text, written into the rows of the table; how many rows they take.
fn rules(reader: &mut Reader, header: Header, table: &mut [i32; WORDS]) -> Result<usize, SheetFault>
    ensures { RulesRead (numbers header) reader.old reader.new table.old table.new result }
{
    let mut progress = Progress::new();
    while reader.at < reader.text.len() {
        let rule = rule_line(reader, header, progress)?;
        rows::put_rule(table, progress.rows, &rule);
        progress = progress.with(&rule);
    }
    if progress.rules < header.rules {
        return Err(SheetFault::Count(reader.at));
    }
    Ok(progress.rows)
}

// What follows the header, written into a table of zeros.
fn body(reader: &mut Reader, header: Header, table: &mut [i32; WORDS]) -> Result<(), SheetFault>
    requires { Zeros table.old }
    ensures { BodyRead (numbers header) reader.old reader.new table.new result }
{
    reader.gap();
    let price = price(reader, header.parts)?;
    let rows = rules(reader, header, table)?;
    rows::put_front(table, header.parts, rows, price.as_ref());
    Ok(())
}

// A whole text, read into a table of zeros.
fn read_text(text: &[u8], table: &mut [i32; WORDS]) -> Result<(), SheetFault>
    requires { Zeros table.old }
    ensures { TextRead text.now table.new result }
{
    text::check_length(text)?;
    let mut reader = Reader::new(text);
    let header = lines::header(&mut reader)?;
    body(&mut reader, header, table)
}

// A whole text, read into a table; a text that is refused leaves every word 0.
fn fill_or_clear(text: &[u8], table: &mut [i32; WORDS]) -> Result<(), SheetFault>
    ensures { Settled text.now table.new result }
{
    table.fill(0);
    match read_text(text, table) {
        Ok(()) => Ok(()),
        Err(fault) => {
            table.fill(0); // nothing of the refused text stays
            Err(fault)
        }
    }
}

// Reads a sheet into a table, which must have 2,668 words. A table of any other length is not touched; a text that is
// refused leaves every word 0.
pub fn read(text: &[u8], table: &mut [i32]) -> Result<(), RunFault>
    ensures { Reading text.now table.old table.new result }
{
    let Some(table) = table.as_mut_array() else {
        return Err(RunFault::TableLength);
    };
    fill_or_clear(text, table)?;
    Ok(())
}
