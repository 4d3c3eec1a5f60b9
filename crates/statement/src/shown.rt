// A statement as it is printed.
ghost use Rattle.std.specs.Prelude.{Some};
ghost use Rattle.board.specs.Board.{choice};
ghost use Rattle.statement.specs.Statement.{statement_text};

use super::lines::{Holdings, Price, Rows, Verdict};
use board::Board;
use notation::shown::Literals;
use std::fmt;
use table::checked::Checked;

// A sheet, and a board that is held against it.
#[derive(Clone, Copy)]
pub struct Statement<'a> {
    pub sheet: Checked<'a>,
    pub board: Board,
}

impl<'a> fmt::Display for Statement<'a> {
    ghost output = { λ s. Some (statement_text s.sheet.words.now (choice s.board.marks)) };

    fn fmt<W: fmt::Write>(&self, f: &mut fmt::Formatter<W>) -> fmt::Result {
        let Statement { sheet, board } = *self;
        let holdings = Holdings { sheet };
        let rows = Rows(*self);
        let literals = Literals { sheet, board };
        let price = Price(*self);
        let verdict = Verdict(*self);
        write!(
            f,
            "{holdings}rule  verdict  reached  needed  in normal form\n{rows}the board:{literals}\n{price}{verdict}"
        )
    }
}
