// What a word of a table holds, and the limits of a word.
ghost use Rattle.std.specs.Prelude.{◌≡◌, Decides};
ghost use Rattle.table.specs.Layout.{place_of, Within};

use super::{ROW, RULES, WEIGHTS};

// Parts and rules are counted from 0 here.
#[derive(Clone, Copy, PartialEq, Eq, Debug)]
pub enum Place {
    // how many parts the sheet declares
    Parts,
    // how many rules it has
    Rules,
    // c0: what the price starts from, below the weights
    Base,
    // 1 where the sheet has a price line, else 0
    Priced,
    // the weight of a part
    Weight(usize),
    // the degree of a rule
    Degree(usize),
    // the coefficient in a rule of a part
    Coefficient(usize, usize),
}

// What the word of this index holds.
impl From<usize> for Place {
    ghost from_gives = { λ word r. r ≡ place_of word };

    #[tactic(auto, unfolding(crate::specs::Layout::place_of))]
    fn from(word: usize) -> Place {
        match word {
            0 => Place::Parts,
            1 => Place::Rules,
            2 => Place::Base,
            3 => Place::Priced,
            WEIGHTS..RULES => Place::Weight(word - WEIGHTS),
            _ => {
                let row = (word - RULES) / ROW;
                match (word - RULES) % ROW {
                    0 => Place::Degree(row),
                    column => Place::Coefficient(row, column - 1),
                }
            }
        }
    }
}

// The least and the greatest value that a word may hold.
#[derive(Clone, Copy)]
pub struct Limits {
    pub least: i32,
    pub most: i32,
}

impl Limits {
    // Whether the word is within them.
    pub fn holds(self, word: i32) -> bool
        ensures { Decides result (Within self word) }
    {
        self.least <= word && word <= self.most
    }
}
