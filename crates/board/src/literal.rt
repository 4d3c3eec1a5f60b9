// What a word says.
ghost use Rattle.std.specs.Prelude.{◌≡◌};
ghost use Rattle.board.specs.Literal.{Numeral, PartNumber, Says};

use super::words::Literal;

// Numbers from here on are read as this one: no sheet has that many parts.
pub const MOST: usize = 1000;

// The number that the bytes write, or MOST where that is larger, if there are any and all are digits. A loop and no
// `parse`, which takes a `+` and refuses a number that is too large.
pub fn numeral(bytes: &[u8]) -> Option<usize>
    ensures { Numeral bytes.now result }
{
    if bytes.is_empty() {
        return None;
    }
    let mut number: usize = 0;
    for byte in bytes {
        if !byte.is_ascii_digit() {
            return None;
        }
        number = (number * 10 + usize::from(*byte - b'0')).min(MOST);
    }
    Some(number)
}

// The number of the part that the word names: x, and then digits.
fn part_number(word: &[u8]) -> Option<usize>
    ensures { PartNumber word.now result }
{
    match word {
        [b'x', digits @ ..] => numeral(digits),
        _ => None,
    }
}

// The literal that the word is: x or -x, and then digits. An Option and no `TryFrom`: there is nothing to tell of a word
// that is none.
pub fn literal(word: &[u8]) -> Option<Literal>
    ensures { Says word.now result }
{
    match word {
        [b'-', rest @ ..] => Some(Literal {
            part: part_number(rest)?,
            taken: false,
        }),
        _ => Some(Literal {
            part: part_number(word)?,
            taken: true,
        }),
    }
}
