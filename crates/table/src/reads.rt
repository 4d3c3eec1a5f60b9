// What a checked table holds, by name.
ghost use Rattle.std.specs.Prelude.{◌≡◌, ℕ, ◌<◌, ◌≤◌, length, pos, slice_index_or, unsigned_abs};
ghost use Rattle.table.specs.Layout.{base, coefficient, degree, parts_of, priced, rules_of, weight, Sound};

use super::checked::{Checked, Row};
use super::{PARTS, ROW, RULES, WEIGHTS};

impl<'a> Checked<'a> {
    // The view of a table that `check` has passed.
    pub fn new(words: &'a [i32]) -> Checked<'a>
        requires { Sound words.now }
        ensures { result.words.now ≡ words.now }
    {
        Checked { words }
    }

    #[tactic(auto, using(crate::proofs::Places::parts_most))]
    pub fn parts(&self) -> usize
        ensures value { result ≡ parts_of self.now.words.now }
        ensures bound { result ≤ 40 }
    {
        self.words[0].unsigned_abs() as usize
    }

    #[tactic(auto, using(crate::proofs::Places::rules_most))]
    pub fn rules(&self) -> usize
        ensures value { result ≡ rules_of self.now.words.now }
        ensures bound { result ≤ 64 }
    {
        self.words[1].unsigned_abs() as usize
    }

    pub fn is_priced(&self) -> bool
        ensures { result ≡ priced self.now.words.now }
    {
        self.words[3].unsigned_abs() != 0
    }

    // What the price starts from.
    #[tactic(auto, using(crate::proofs::Places::base_most))]
    pub fn base(&self) -> i32
        ensures value { result ≡ base self.now.words.now }
        ensures bound { unsigned_abs result ≤ 4000000 }
    {
        self.words[2]
    }

    // The weights of all parts.
    pub fn weights(&self) -> &'a [i32]
        ensures long { length result.now ≡ 40 }
        ensures each { (i : ℕ) → i < 40 → slice_index_or result.now i (pos 0) ≡ weight self.now.words.now i }
        ensures bound { (i : ℕ) → i < 40 → unsigned_abs (slice_index_or result.now i (pos 0)) ≤ 100000 }
    {
        let words = self.words;
        &words[WEIGHTS..RULES]
    }

    pub fn weight(&self, part: usize) -> i32
        requires { part < 40 }
        ensures value { result ≡ weight self.now.words.now part }
        ensures bound { unsigned_abs result ≤ 100000 }
    {
        self.weights()[part]
    }

    pub fn row(&self, number: usize) -> Row<'a>
        requires { number < 64 }
        ensures { (result.sheet.words.now ≡ self.now.words.now) × (result.number ≡ number) }
    {
        Row {
            sheet: *self,
            number,
        }
    }

    pub fn degree(&self, rule: usize) -> u32
        requires { rule < 64 }
        ensures value { result ≡ degree self.now.words.now rule }
        ensures bound { result ≤ 140000000 }
    {
        self.row(rule).degree()
    }

    pub fn coefficient(&self, rule: usize, part: usize) -> i32
        requires { (rule < 64) × (part < 40) }
        ensures value { result ≡ coefficient self.now.words.now rule part }
        ensures bound { unsigned_abs result ≤ 1000000 }
    {
        self.row(rule).coefficients()[part]
    }
}

impl<'a> Row<'a> {
    pub fn degree(&self) -> u32
        ensures value { result ≡ degree self.now.sheet.words.now self.now.number }
        ensures bound { result ≤ 140000000 }
    {
        self.sheet.words[RULES + ROW * self.number].unsigned_abs()
    }

    // The coefficients of all parts.
    pub fn coefficients(&self) -> &'a [i32]
        ensures long { length result.now ≡ 40 }
        ensures each { (i : ℕ) → i < 40 → slice_index_or result.now i (pos 0) ≡ coefficient self.now.sheet.words.now self.now.number i }
        ensures bound { (i : ℕ) → i < 40 → unsigned_abs (slice_index_or result.now i (pos 0)) ≤ 1000000 }
    {
        let words = self.sheet.words;
        let first = RULES + ROW * self.number + 1;
        &words[first..first + PARTS]
    }
}
