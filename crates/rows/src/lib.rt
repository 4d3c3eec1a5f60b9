// Normal form: how written sums and rules become words of the table.
#![tactic(auto)]

ghost use Rattle.std.specs.Prelude.{◌≡◌, ℕ, ◌+◌, ◌-◌, ◌*◌, ◌<◌, ◌≤◌, [], ◌∷◌, ◌++◌, length, map, take, drop, pos, slice_set, unsigned_abs};
ghost use Rattle.std.specs.Option.{option_copied};
ghost use Rattle.lines.specs.Lines.{rows_for};
ghost use Rattle.rows.specs.Rows.{given, words, rule_rows, base_of, front_of, Narrow, NarrowPrice, Appends, Fronts};

pub mod normal;

use lines::line::{Comparison, MOST_PARTS, Parts, Rule, Sum};
use normal::AtLeast;
use std::array;

// The words of a table.
pub const WORDS: usize = 2668;

// The rows of a table.
pub const ROWS: usize = 64;

// The words in front of the rows: the weights, and four before them.
const FRONT_WORDS: usize = 44;

const WEIGHTS: usize = 4;

// The words of a row: its degree and its coefficients.
const ROW_WORDS: usize = 41;

// The coefficient of a part, 0 where it is not named.
fn given(term: Option<i32>) -> i32
    ensures { result ≡ given term }
{
    term.unwrap_or(0)
}

// The coefficients of a sum, a word for each part.
#[tactic(auto, unfolding(crate::specs::Rows::words))]
pub fn coefficients(sum: &Sum) -> [i32; MOST_PARTS]
    ensures { result ≡ words sum.now }
{
    words_of(&sum.terms)
}

// The word of each part. By from_fn, which goes over an array once, where map goes three times.
fn words_of(terms: &[Option<i32>; MOST_PARTS]) -> [i32; MOST_PARTS]
    ensures { result ≡ map given terms.now }
{
    array::from_fn(|i| given(terms[i]))
}

// Writes forty words from this place on.
pub fn put_words(table: &mut [i32], start: usize, words: &[i32; MOST_PARTS])
    requires { start + 40 ≤ length table.old }
    ensures { table.new ≡ take start table.old ++ (words.now ++ drop (start + 40) table.old) }
{
    table[start..start + MOST_PARTS].copy_from_slice(words);
}

// Writes the rows of a rule, from this row on.
pub fn put_rule(table: &mut [i32; WORDS], row: usize, rule: &Rule)
    requires room { row + rows_for rule.now.comparison ≤ 64 }
    requires narrow { Narrow (words rule.now.sum) }
    requires low { unsigned_abs rule.now.bound ≤ 100000000 }
    ensures { Appends row table.old table.new (rule_rows rule.now) }
{
    let least = AtLeast {
        coefficients: normal::Coefficients::of(&rule.sum),
        bound: rule.bound,
    };
    least.put(table, row);
    match rule.comparison {
        Comparison::AtLeast => {}
        Comparison::Equal => least.turned().put(table, row + 1),
    }
}

// Writes the words in front of the rows.
pub fn put_front(table: &mut [i32; WORDS], parts: Parts, rows: usize, price: Option<&Sum>)
    requires small { rows ≤ 64 }
    requires narrow { NarrowPrice (option_copied price) }
    ensures { Fronts table.old table.new (front_of parts.number rows (option_copied price.entry)) }
{
    table[0] = parts.number as i32;
    table[1] = rows as i32;
    if let Some(sum) = price {
        put_price(table, sum);
    }
}

// Writes c0, that there is a price line, and the weights.
fn put_price(table: &mut [i32; WORDS], sum: &Sum)
    requires { Narrow (words sum.now) }
    ensures { table.new ≡ take 4 (slice_set (slice_set table.old 2 (base_of (words sum.now))) 3 (pos 1)) ++ (words sum.now ++ drop 44 table.old) }
{
    let prices = normal::Coefficients::of(sum);
    table[2] = prices.base();
    table[3] = 1;
    put_words(table, WEIGHTS, &prices.words);
}
