// A board: which parts of a sheet are taken, made from literals as a quote writes them, and held against the sheet.
//
// The literals `x1 -x2` take part 1 and leave part 2 out; a part that no literal names is not taken. specs/Literal.antt
// says what a word means, specs/Board.antt what a list of words makes of a board. What a board reaches, whether it meets
// a sheet and what it costs is said by the meaning of the sheet's table.
#![tactic(auto)]

ghost use Rattle.std.specs.Prelude.{◌≡◌, ℕ, ◌<◌, ◌≤◌, length, map, pos, IfOk, string_bytes, Decides, MatchOption, slice_index_or, unsigned_abs};
ghost use Rattle.rules.specs.Rule.{at, kept, open_sum};
ghost use Rattle.table.specs.Layout.{rules_of};
ghost use Rattle.table.specs.Meaning.{mark, chosen, Meets, price};
ghost use Rattle.board.specs.Board.{is_one, bare, choice, Named, Read, TakesAsSaid, judged, breaks, broken_rules};

pub mod literal;
pub mod words;

use literal::literal;
use rules::Mark;
use table::PARTS;
use table::checked::{Checked, Row};
use words::{Judgement, Literal, Misread, Trouble};

// The mark of each part: free where no literal has named it.
#[derive(Clone, Copy)]
pub struct Board {
    pub marks: [Mark; PARTS],
}

impl Board {
    // The board of no words: nothing is taken.
    pub fn nothing() -> Board
        ensures { result.marks ≡ bare }
    {
        Board {
            marks: [Mark::Free; PARTS],
        }
    }

    // Takes the part that the word names, or leaves it out, as the word says. A word that is refused changes nothing.
    pub fn name(&mut self, word: &[u8], sheet: &Checked) -> Result<(), Trouble>
        ensures { Named sheet.now.words.now word.now self.old.marks result self.new.marks }
    {
        let Literal { part, taken } = literal(word).ok_or(Trouble::NotALiteral)?;
        if part == 0 || sheet.parts() < part {
            return Err(Trouble::NoSuchPart);
        }
        match self.marks[part - 1] {
            Mark::Free => {
                self.marks[part - 1] = Mark::from(taken);
                Ok(())
            }
            _ => Err(Trouble::NamedTwice),
        }
    }

    // The board that the words name, or the first word that is refused.
    pub fn read(words: &[String], sheet: &Checked) -> Result<Board, Misread>
        ensures steps { Read sheet.now.words.now (map string_bytes words.now) result }
        ensures taken { IfOk result (λ b. TakesAsSaid (map string_bytes words.now) b.marks) }
    {
        let mut board = Board::nothing();
        for (index, word) in words.iter().enumerate() {
            board
                .name(word.as_bytes(), sheet)
                .map_err(|trouble| Misread { index, trouble })?;
        }
        Ok(board)
    }

    // Whether the part, counted from 0, is taken.
    pub fn takes(&self, part: usize) -> bool
        ensures { result ≡ choice self.now.marks part }
    {
        part < PARTS && is_taken(self.marks[part])
    }

    // What these coefficients give together, each where its literal is true on this board.
    fn sum(&self, coefficients: &[i32]) -> u32
        requires long { length coefficients.now ≡ 40 }
        requires small { (i : ℕ) → i < 40 → unsigned_abs (slice_index_or coefficients.now i (pos 0)) ≤ 1000000 }
        ensures { result ≡ open_sum 40 (at coefficients.now) (chosen (choice self.now.marks)) }
    {
        self.marks
            .iter()
            .zip(coefficients)
            .map(|(mark, coefficient)| gives(*mark, *coefficient))
            .sum()
    }

    // How the rule of the row fares.
    pub fn fares(&self, row: &Row) -> Judgement
        ensures { result ≡ judged row.now.sheet.words.now row.now.number (choice self.now.marks) }
    {
        Judgement {
            reached: self.sum(row.coefficients()),
            needed: row.degree(),
        }
    }

    // How a rule of the sheet, counted from 0, fares: None where the sheet has no such rule.
    pub fn judge(&self, sheet: &Checked, rule: usize) -> Option<Judgement>
        ensures { MatchOption result (rules_of sheet.now.words.now ≤ rule) (λ j. (rule < rules_of sheet.now.words.now) × (j ≡ judged sheet.now.words.now rule (choice self.now.marks))) }
    {
        if sheet.rules() <= rule {
            return None;
        }
        Some(self.fares(&sheet.row(rule)))
    }

    // Whether the board breaks the rule of the row.
    fn breaks(&self, row: &Row) -> bool
        ensures { result ≡ breaks row.now.sheet.words.now (choice self.now.marks) row.now.number }
    {
        !self.fares(row).is_met()
    }

    // How many rules of the sheet the board breaks.
    pub fn broken(&self, sheet: &Checked) -> usize
        ensures { result ≡ broken_rules sheet.now.words.now (choice self.now.marks) }
    {
        (0..sheet.rules())
            .filter(|rule| self.breaks(&sheet.row(*rule)))
            .count()
    }

    // Whether the board meets every rule of the sheet.
    pub fn meets(&self, sheet: &Checked) -> bool
        ensures { Decides result (Meets sheet.now.words.now (choice self.now.marks)) }
    {
        self.broken(sheet) == 0
    }

    // What the board costs.
    pub fn price(&self, sheet: &Checked) -> i64
        ensures { result ≡ price sheet.now.words.now (choice self.now.marks) }
    {
        i64::from(sheet.base()) + i64::from(self.sum(sheet.weights()))
    }
}

fn is_taken(mark: Mark) -> bool
    ensures { result ≡ is_one mark }
{
    matches!(mark, Mark::One)
}

// What a term gives on a part with this mark: its size where its literal is true, else 0.
fn gives(known: Mark, coefficient: i32) -> u32
    ensures { result ≡ kept coefficient (mark (is_one known)) }
{
    Mark::from(is_taken(known)).leaves(coefficient)
}
