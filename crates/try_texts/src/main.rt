// Reads every text of a list, and holds what comes of it against what the list expects.
//
// The list comes from standard input, one text to a line: a name, the text with its escapes, and in words what reading
// it comes to. A line that begins with `#` is a remark. For each text that comes to anything else a line is printed,
// and in the end how many there are and how many agree. The program ends with status 1 where some disagree.
#![tactic(auto)]

mod escape;
mod list;
mod outcome;

use anyhow::anyhow;
use list::Case;
use outcome::Outcome;
use std::alloc::Global;
use std::io;
use tally::compared;

fn main(rt: HostRuntime) -> anyhow::Result<()> {
    let list = io::read_to_string(rt.alloc(), rt.stdin())?;
    let tally = compared(
        "texts",
        list.as_str(),
        |line| compare(&rt, rt.alloc(), line),
    )?;
    println!(rt; "{tally}")?;
    if tally.is_whole() {
        Ok(())
    } else {
        Err(anyhow!("some texts disagree"))
    }
}

// Reads the text of one line, and says whether it comes to what the line expects.
fn compare(rt: &impl Print, heap: Global, line: &str) -> anyhow::Result<bool> {
    let Some(
        Case {
            name,
            text,
            expected,
        },
    ) = Case::of(line)
    else {
        println!(rt; "not a case: {line}")?;
        return Ok(false);
    };
    let Some(bytes) = escape::unescape(heap, text.as_bytes())? else {
        println!(rt; "{name}: an escape is not written \\xNN")?;
        return Ok(false);
    };
    let got = Outcome::of(bytes.as_slice()).to_string(heap)?;
    agree(rt, name, expected, got.as_str())
}

// Whether what came is what is expected; if not, both are printed.
fn agree(rt: &impl Print, name: &str, expected: &str, got: &str) -> anyhow::Result<bool> {
    if got.as_bytes() == expected.as_bytes() {
        return Ok(true);
    }
    println!(rt; "{name}: expected {expected}, got {got}")?;
    Ok(false)
}
