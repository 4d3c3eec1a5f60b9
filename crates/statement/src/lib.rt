// The statement of an audit: what the sheet holds, how each rule fares, the board, its price and the verdict.
//
// specs/Statement.antt says which bytes that is, line by line.
#![tactic(auto)]

ghost use Rattle.std.specs.Prelude.{◌≡◌, IfOk, string_bytes};
ghost use Rattle.board.specs.Board.{choice};
ghost use Rattle.statement.specs.Statement.{statement_text};

mod lines;
pub mod shown;

use board::Board;
use shown::Statement;
use std::alloc::{AllocError, Global};
use table::checked::Checked;

// What is printed of a board and a sheet.
pub fn statement(heap: Global, sheet: &Checked, board: &Board) -> Result<String, AllocError>
    ensures { IfOk result (λ s. string_bytes s ≡ statement_text sheet.now.words.now (choice board.now.marks)) }
{
    let (sheet, board) = (*sheet, *board);
    Statement { sheet, board }.to_string(heap)
}
