// Words that name no board, as they are printed.
ghost use Rattle.std.specs.Prelude.{◌≡◌, [], map, Some, string_bytes, slice_index_or};
ghost use Rattle.refused.specs.Refused.{board_text};

use super::excerpt::Bytes;
use board::words::Misread;
use std::fmt;

// The words, the first one that is wrong, and how many parts the sheet has.
#[derive(Clone, Copy)]
pub struct BoardRefusal<'a> {
    pub words: &'a [String],
    pub misread: Misread,
    pub parts: usize,
}

impl<'a> fmt::Display for BoardRefusal<'a> {
    ghost output = { λ b. Some (board_text (map string_bytes b.words.now) b.misread b.parts) };

    fn fmt<W: fmt::Write>(&self, f: &mut fmt::Formatter<W>) -> fmt::Result {
        let BoardRefusal {
            words,
            misread,
            parts,
        } = *self;
        let Misread { index, trouble } = misread;
        let number = index.saturating_add(1);
        let word = Bytes(word_at(words, index));
        write!(
            f,
            "the board is refused: argument {number}, `{word}`, {trouble}\nname the parts x1 to x{parts}, each at most once: x1 takes part 1, -x1 leaves it out; a part that is not named is not taken\n"
        )
    }
}

// The bytes of a word, or nothing where there is none.
fn word_at(words: &[String], index: usize) -> &[u8]
    ensures { result.now ≡ slice_index_or (map string_bytes words.now) index [] }
{
    match words.get(index) {
        Some(word) => word.as_bytes(),
        None => &[],
    }
}
