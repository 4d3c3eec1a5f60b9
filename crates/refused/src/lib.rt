// Refusals as a person reads them: what is wrong, where, and the line of the text with a caret under the place.
//
// specs/Refused.antt says which bytes are printed.
#![tactic(auto)]

ghost use Rattle.std.specs.Prelude.{◌≡◌, map, IfOk, string_bytes};
ghost use Rattle.refused.specs.Refused.{Told, board_text};

mod excerpt;
pub mod shown;

use board::words::Misread;
use excerpt::{Excerpt, Head};
use faults::fault::{Refusal, RunFault};
use shown::BoardRefusal;
use std::alloc::{AllocError, Global};

// What is printed of a text that is no sheet. A function, and no type that is displayed: the text comes with an excerpt
// that fits the place, and there may be more than one.
pub fn refused_sheet(heap: Global, text: &[u8], fault: RunFault) -> Result<String, AllocError>
    ensures { IfOk result (λ s. Told text.now fault (string_bytes s)) }
{
    let head = Head(fault);
    match fault {
        RunFault::Sheet(fault) => {
            let excerpt = Excerpt::of(text, Refusal::from(fault).place);
            format!(in heap; "{head}{excerpt}")
        }
        _ => head.to_string(heap),
    }
}

// What is printed of words that name no board of a sheet with so many parts.
pub fn refused_board(
    heap: Global,
    words: &[String],
    misread: Misread,
    parts: usize,
) -> Result<String, AllocError>
    ensures { IfOk result (λ s. string_bytes s ≡ board_text (map string_bytes words.now) misread parts) }
{
    BoardRefusal {
        words,
        misread,
        parts,
    }
    .to_string(heap)
}
