// The notation of sheets and quotes: literals, rules and boards as text.
//
// specs/Text.antt says which bytes each of them is.
#![tactic(auto)]

ghost use Rattle.std.specs.Prelude.{◌≡◌, ◌<◌, not, replicate, IfOk, string_bytes};
ghost use Rattle.table.specs.Layout.{parts_of};
ghost use Rattle.board.specs.Board.{choice};
ghost use Rattle.notation.specs.Text.{literal_text, rule_text, literals_text};

pub mod shown;

use board::Board;
use rules::term::Literal;
use shown::{Blanks, Literals, RuleText};
use std::alloc::{AllocError, Global};
use table::checked::Checked;

// The literal of a part, counted from 0.
pub fn literal_of(plain: bool, part: usize) -> Literal
    ensures { result ≡ record { variable = part; negated = not plain } }
{
    Literal {
        variable: part,
        negated: !plain,
    }
}

// The same as text.
#[tactic(auto, using(crate::proofs::Texts::literal_same))]
pub fn literal(heap: Global, plain: bool, part: usize) -> Result<String, AllocError>
    requires { part < 40 }
    ensures { IfOk result (λ s. string_bytes s ≡ literal_text plain part) }
{
    literal_of(plain, part).to_string(heap)
}

// A rule of the sheet, counted from 0, as `2 -x1 + 3 x2 >= 2`.
pub fn rule_text(heap: Global, sheet: &Checked, rule: usize) -> Result<String, AllocError>
    requires { rule < 64 }
    ensures { IfOk result (λ s. string_bytes s ≡ rule_text sheet.now.words.now rule) }
{
    let row = sheet.row(rule);
    RuleText { row }.to_string(heap)
}

// The board as literals of the parts that the sheet declares, a blank before each.
pub fn literals(heap: Global, sheet: &Checked, board: &Board) -> Result<String, AllocError>
    ensures { IfOk result (λ s. string_bytes s ≡ literals_text (choice board.now.marks) (parts_of sheet.now.words.now)) }
{
    let (sheet, board) = (*sheet, *board);
    Literals { sheet, board }.to_string(heap)
}

// So many blanks.
pub fn blanks(heap: Global, many: usize) -> Result<String, AllocError>
    ensures { IfOk result (λ s. string_bytes s ≡ replicate many 32) }
{
    Blanks(many).to_string(heap)
}
