// Reading one rule alone, a wish, against a sheet.
#![tactic(auto)]

ghost use Rattle.std.specs.Prelude.{◌≡◌, ℕ, ◌-◌, ◌≤◌, Ok, Err};
ghost use Rattle.text.specs.Reading.{Step};
ghost use Rattle.opb.specs.Sheets.{End, AloneHere};
ghost use Rattle.wish.specs.Wishes.{AloneRead, Reading};

use faults::fault::{RunFault, SheetFault, TextFault};
use lines::line::{Parts, Rule};
use rows::ROWS;
use table::checked::Checked;
use text::reader::{Class, Limit, Reader};

// Nothing stands here any more.
fn at_end(reader: &Reader) -> Result<(), TextFault>
    ensures { Step End reader.now reader.now result }
{
    if reader.at < reader.text.len() {
        return Err(TextFault::Misplaced(reader.at));
    }
    Ok(())
}

// One rule about so many parts, for which `room` rows are left, and nothing else but blanks.
fn alone(reader: &mut Reader, parts: Parts, room: usize) -> Result<Rule, SheetFault>
    ensures { Step (λ t. AloneHere t parts.number room) reader.old reader.new result }
{
    reader.pass(Class::Blank);
    let first = reader.value(Limit::Coefficient)?;
    let rule = lines::rule_after(reader, parts, room, first)?;
    reader.pass(Class::Blank);
    at_end(reader)?;
    Ok(rule)
}

// The text of one rule alone.
fn read_alone(text: &[u8], parts: Parts, room: usize) -> Result<Rule, SheetFault>
    ensures { AloneRead text.now parts.number room result }
{
    text::check_length(text)?;
    let mut reader = Reader::new(text);
    alone(&mut reader, parts, room)
}

// Reads one rule against the sheet in a table: about its parts, and with the rows that it has left. Nothing is changed.
pub fn read_rule(text: &[u8], table: &[i32]) -> Result<Rule, RunFault>
    ensures { Reading text.now table.now result }
{
    table::check(table)?;
    let sheet = Checked::new(table);
    let parts = Parts {
        number: sheet.parts(),
    };
    let rule = read_alone(text, parts, ROWS - sheet.rules())?;
    Ok(rule)
}
