// The audit of a board against a sheet: the sheet comes from standard input, the board's literals are the arguments.
//
// It prints the statement and ends with status 0, whether or not the board meets the sheet. A text that is no sheet and
// words that name no board are refused: it prints why, and ends with status 1.
#![tactic(auto)]

use anyhow::bail;
use board::Board;
use refused::{refused_board, refused_sheet};
use statement::statement;
use std::env;
use std::io::Read;
use table::WORDS;
use table::checked::Checked;

const USAGE: &str = "usage: audit [LITERAL..] < SHEET
Holds a board against a sheet: for each rule what the board reaches and what the rule needs, then the board's price.
A literal x3 takes part 3, and -x3 leaves it out; a part that is not named is not taken.";

fn main(rt: HostRuntime) -> anyhow::Result<()> {
    run(&rt)
}

fn run(rt: &HostRuntime) -> anyhow::Result<()> {
    let words: Vec<String> = env::args(rt)?.skip(1).collect(rt.alloc())?;
    if words.first().is_some_and(|word| word.as_str() == "--help") {
        println!(rt; "{USAGE}")?;
        return Ok(());
    }
    let mut text: Vec<u8> = Vec::new(rt.alloc());
    rt.stdin().read_to_end(&mut text)?;
    audit(rt, text.as_slice(), words.as_slice())
}

// Prints the audit of the board that the words name.
fn audit(rt: &HostRuntime, text: &[u8], words: &[String]) -> anyhow::Result<()> {
    let mut table = [0i32; WORDS];
    match sheet::read(text, &mut table) {
        Ok(()) => hold(rt, Checked::new(&table), words),
        Err(fault) => {
            rt.print(refused_sheet(rt.alloc(), text, fault)?)?;
            bail!("the sheet is refused")
        }
    }
}

// Prints what the board reaches of the sheet's rules and what it costs.
fn hold(rt: &HostRuntime, sheet: Checked, words: &[String]) -> anyhow::Result<()> {
    match Board::read(words, &sheet) {
        Ok(board) => {
            rt.print(statement(rt.alloc(), &sheet, &board)?)?;
            Ok(())
        }
        Err(misread) => {
            rt.print(refused_board(rt.alloc(), words, misread, sheet.parts())?)?;
            bail!("the board is refused")
        }
    }
}
