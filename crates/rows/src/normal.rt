// A sum that is at least a bound, in normal form.
ghost use Rattle.std.specs.Prelude.{◌≡◌, ℕ, ◌≤◌, ◌<◌, pos, ◌+ℤ◌, neg_ℤ, [], ◌∷◌, slice_index_or, unsigned_abs};
ghost use Rattle.rows.specs.Rows.{words, turn, below, negatives, floored, at_least, base_of, Narrow, Appends};

use super::{FRONT_WORDS, ROW_WORDS, WORDS};
use lines::line::{MOST_PARTS, Sum};
use std::array;

// The coefficients of a sum, a word for each part, of at most a million in size.
#[derive(Clone, Copy)]
pub struct Coefficients {
    pub words: [i32; MOST_PARTS],
    ghost narrow: { (i : ℕ) → unsigned_abs (slice_index_or words i (pos 0)) ≤ 1000000 },
}

// A sum that is at least `bound`, which is at most a hundred million in size.
#[derive(Clone, Copy)]
pub struct AtLeast {
    pub coefficients: Coefficients,
    pub bound: i32,
    ghost low: { unsigned_abs bound ≤ 100000000 },
}

// How far a coefficient lies below 0.
fn size_below(coefficient: i32) -> u32
    ensures { result ≡ below coefficient }
{
    coefficient.min(0).unsigned_abs()
}

impl Coefficients {
    // Those of a sum.
    pub fn of(sum: &Sum) -> Coefficients
        requires { Narrow (words sum.now) }
        ensures { result.words ≡ words sum.now }
    {
        let words = super::coefficients(sum);
        Coefficients { words }
    }

    // The words with every sign turned.
    fn turned_words(&self) -> [i32; MOST_PARTS]
        ensures { result ≡ turn self.now.words }
    {
        array::from_fn(|i| -self.words[i])
    }

    // The same coefficients with every sign turned.
    fn turned(&self) -> Coefficients
        ensures { result.words ≡ turn self.now.words }
    {
        let words = self.turned_words();
        Coefficients { words }
    }

    // The sizes of the negative coefficients together.
    fn negative_sizes(&self) -> u32
        ensures value { result ≡ negatives self.now.words }
        ensures bound { result ≤ 40000000 }
    {
        self.words.iter().map(|word| size_below(*word)).sum()
    }

    // c0 where these are prices: the negative ones together.
    pub fn base(&self) -> i32
        ensures { result ≡ base_of self.now.words }
    {
        -(self.negative_sizes() as i32)
    }
}

impl AtLeast {
    // The same sum with every sign turned, at least the bound with its sign turned.
    pub fn turned(&self) -> AtLeast
        ensures coefficients { result.coefficients.words ≡ turn self.now.coefficients.words }
        ensures bound { result.bound ≡ neg_ℤ self.now.bound }
    {
        AtLeast {
            coefficients: self.coefficients.turned(),
            bound: -self.bound,
        }
    }

    // The degree that the sum has.
    fn degree(&self) -> i32
        ensures { result ≡ pos (floored (self.now.bound +ℤ pos (negatives self.now.coefficients.words))) }
    {
        (self.bound + self.coefficients.negative_sizes() as i32).max(0)
    }

    // Writes it as a row of the table.
    pub fn put(&self, table: &mut [i32; WORDS], row: usize)
        requires { row < 64 }
        ensures { Appends row table.old table.new (at_least self.now.coefficients.words self.now.bound ∷ []) }
    {
        let start = FRONT_WORDS + ROW_WORDS * row;
        table[start] = self.degree();
        super::put_words(table, start + 1, &self.coefficients.words);
    }
}
