// A literal as it is written, what can be wrong with one, and how a rule fares.
ghost use Rattle.std.specs.Prelude.{◌≡◌, Some, nat_le};
ghost use Rattle.board.specs.Trouble.{trouble_words, misread_words};

use std::error::Error;
use std::fmt;

// A part by its number, and whether it is taken.
#[derive(Clone, Copy, PartialEq, Eq, Debug)]
pub struct Literal {
    pub part: usize,
    pub taken: bool,
}

// What is wrong with a word.
#[derive(Clone, Copy, PartialEq, Eq, Debug)]
pub enum Trouble {
    // it is not x or -x and then digits
    NotALiteral,
    // it names part 0, or one that the sheet does not declare
    NoSuchPart,
    // it names a part that a word before it has named
    NamedTwice,
}

// The first word that is wrong, by its index, and what is wrong with it.
#[derive(Clone, Copy, PartialEq, Eq, Debug)]
pub struct Misread {
    pub index: usize,
    pub trouble: Trouble,
}

// What a board reaches of a rule, and what the rule needs.
#[derive(Clone, Copy, PartialEq, Eq, Debug)]
pub struct Judgement {
    pub reached: u32,
    pub needed: u32,
}

impl Judgement {
    pub fn is_met(self) -> bool
        ensures { result ≡ nat_le self.needed self.reached }
    {
        self.needed <= self.reached
    }
}

impl Trouble {
    // What is wrong, in words.
    pub fn words(self) -> &'static str
        ensures { result.now ≡ trouble_words self }
    {
        match self {
            Trouble::NotALiteral => "is not a literal",
            Trouble::NoSuchPart => "names a part that the sheet does not declare",
            Trouble::NamedTwice => "names a part that an earlier word has named",
        }
    }
}

impl fmt::Display for Trouble {
    ghost output = { λ t. Some (trouble_words t) };

    fn fmt<W: fmt::Write>(&self, f: &mut fmt::Formatter<W>) -> fmt::Result {
        let words = self.words();
        write!(f, "{words}")
    }
}

// A word by its number, from 1, and what is wrong with it.
impl fmt::Display for Misread {
    ghost output = { λ m. Some (misread_words m) };

    fn fmt<W: fmt::Write>(&self, f: &mut fmt::Formatter<W>) -> fmt::Result {
        let Misread { index, trouble } = *self;
        let number = index.saturating_add(1);
        write!(f, "word {number} {trouble}")
    }
}

impl Error for Trouble {}

impl Error for Misread {}
