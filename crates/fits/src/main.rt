// A board that fits a sheet, or that there is none: the sheet comes from standard input, the steps allowed as an argument.
//
// It prints the statement of the board, what each rule reaches and needs, and the steps that the plain engine made. It ends
// with status 0 whether or not there is a board. A text that is no sheet is refused: it prints why, and ends with status 1.
#![tactic(auto)]

use anyhow::anyhow;
use faults::fault::RunFault;
use finder::find;
use finder::found::{Finding, Found};
use ledger::state::Sheet;
use plain::state::Plain;
use refused::refused_sheet;
use statement::statement;
use std::env;
use std::io::Read;
use table::WORDS;

const USAGE: &str = "usage: fits [STEPS] < SHEET
Looks for a board that meets a sheet, in at most STEPS steps (1000000 where none are named), and prints what it reaches.
The plain engine looks: it goes through the boards in their order, so it suits sheets of some twenty parts.";

// The steps that are allowed where none are named.
const STEPS: u64 = 1_000_000;

fn main(rt: HostRuntime) -> anyhow::Result<()> {
    run(&rt)
}

fn run(rt: &HostRuntime) -> anyhow::Result<()> {
    let words: Vec<String> = env::args(rt)?.skip(1).collect(rt.alloc())?;
    let Some(allowance) = allowance(words.as_slice()) else {
        println!(rt; "{USAGE}")?;
        return Ok(());
    };
    let mut text: Vec<u8> = Vec::new(rt.alloc());
    rt.stdin().read_to_end(&mut text)?;
    look(rt, text.as_slice(), allowance)
}

// The steps that the words allow, where they are no more than one number.
fn allowance(words: &[String]) -> Option<u64> {
    match words {
        [] => Some(STEPS),
        [word] => word.as_str().parse::<u64>().ok(),
        _ => None,
    }
}

// The sheet of a text.
fn sheet_of(text: &[u8]) -> Result<Sheet, RunFault> {
    let mut table = [0i32; WORDS];
    sheet::read(text, &mut table)?;
    Sheet::from_table(&table)
}

// Reads the sheet and prints what is found.
fn look(rt: &HostRuntime, text: &[u8], allowance: u64) -> anyhow::Result<()> {
    match sheet_of(text) {
        Ok(sheet) => tell(rt, &sheet, find(&sheet, &mut Plain::new(), allowance)),
        Err(fault) => {
            rt.print(refused_sheet(rt.alloc(), text, fault)?)?;
            Err(anyhow!("the sheet is refused"))
        }
    }
}

// Prints the statement of a board, or that there is none, and the steps.
fn tell(rt: &HostRuntime, sheet: &Sheet, finding: Finding) -> anyhow::Result<()> {
    let steps = finding.steps;
    match finding.found {
        Found::Fits(board) => {
            rt.print(statement(rt.alloc(), &sheet.checked(), &board)?)?;
            println!(rt; "found in {steps} steps")?;
        }
        Found::Nothing => println!(rt; "no board meets the sheet, told after {steps} steps")?,
        Found::Unfinished => println!(rt; "undecided after {steps} steps")?,
    }
    Ok(())
}
