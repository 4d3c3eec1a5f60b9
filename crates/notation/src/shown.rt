// Rules and boards as they are printed.
ghost use Rattle.std.specs.Prelude.{◌≡◌, replicate, Some};
ghost use Rattle.table.specs.Layout.{parts_of};
ghost use Rattle.board.specs.Board.{choice};
ghost use Rattle.notation.specs.Text.{signed_term, next_text, rule_text, literals_text};

use super::literal_of;
use board::Board;
use rules::term::Term;
use std::fmt;
use table::checked::{Checked, Row};

// A rule of a sheet.
#[derive(Clone, Copy)]
pub struct RuleText<'a> {
    pub row: Row<'a>,
}

// A board, as literals of the parts that a sheet declares.
#[derive(Clone, Copy)]
pub struct Literals<'a> {
    pub sheet: Checked<'a>,
    pub board: Board,
}

// So many blanks.
#[derive(Clone, Copy)]
pub struct Blanks(pub usize);

// A term that may follow others.
#[derive(Clone, Copy)]
struct Next {
    follows: bool,
    term: Term,
}

// The term of a coefficient on a part, counted from 0.
fn term(coefficient: i32, part: usize) -> Term
    ensures { result ≡ signed_term coefficient part }
{
    Term {
        coefficient: coefficient.unsigned_abs(),
        literal: literal_of(coefficient >= 0, part),
    }
}

// A term of coefficient 0 is not written.
impl fmt::Display for Next {
    ghost output = { λ n. Some (next_text n.follows n.term) };

    fn fmt<W: fmt::Write>(&self, f: &mut fmt::Formatter<W>) -> fmt::Result {
        let Next { follows, term } = *self;
        if term.coefficient == 0 {
            return Ok(());
        }
        if follows {
            write!(f, " + {term}")
        } else {
            write!(f, "{term}")
        }
    }
}

impl<'a> fmt::Display for RuleText<'a> {
    ghost output = { λ r. Some (rule_text r.row.sheet.words.now r.row.number) };

    #[tactic(auto, unfolding(crate::specs::Text::terms_text))]
    fn fmt<W: fmt::Write>(&self, f: &mut fmt::Formatter<W>) -> fmt::Result {
        let mut follows = false;
        for (part, coefficient) in self.row.coefficients().iter().enumerate() {
            let term = term(*coefficient, part);
            let next = Next { follows, term };
            write!(f, "{next}")?;
            follows |= term.coefficient != 0;
        }
        let degree = self.row.degree();
        if follows {
            write!(f, " >= {degree}")
        } else {
            write!(f, "0 >= {degree}")
        }
    }
}

impl<'a> fmt::Display for Literals<'a> {
    ghost output = { λ l. Some (literals_text (choice l.board.marks) (parts_of l.sheet.words.now)) };

    #[tactic(auto, unfolding(crate::specs::Text::literals_text))]
    fn fmt<W: fmt::Write>(&self, f: &mut fmt::Formatter<W>) -> fmt::Result {
        for part in 0..self.sheet.parts() {
            let literal = literal_of(self.board.takes(part), part);
            write!(f, " {literal}")?;
        }
        Ok(())
    }
}

impl fmt::Display for Blanks {
    ghost output = { λ b. Some (replicate b.0 32) };

    fn fmt<W: fmt::Write>(&self, f: &mut fmt::Formatter<W>) -> fmt::Result {
        for _blank in 0..self.0 {
            write!(f, " ")?;
        }
        Ok(())
    }
}
