// What the lines of a sheet say.
ghost use Rattle.std.specs.Prelude.{◌<◌, ◌≤◌};

// The most parts that a header may declare.
pub const MOST_PARTS: usize = 40;

// How many parts are declared.
#[derive(Clone, Copy)]
pub struct Parts {
    pub number: usize,
    ghost few: { number ≤ 40 },
}

// The coefficient that a sum gives to each part that it names; x1 stands first.
#[derive(Clone, Copy)]
pub struct Sum {
    pub terms: [Option<i32>; MOST_PARTS],
}

// The line that a sum stands in. It decides the limits of the sum's numbers and what may close it.
#[derive(Clone, Copy)]
pub enum Line {
    Price,
    Rule,
}

// How a rule compares its sum with its right side.
#[derive(Clone, Copy, PartialEq, Eq, Debug)]
pub enum Comparison {
    AtLeast,
    Equal,
}

// A rule as written.
#[derive(Clone, Copy)]
pub struct Rule {
    pub sum: Sum,
    pub comparison: Comparison,
    pub bound: i32,
}

// What the header announces: a part or more, and 64 rules at most.
#[derive(Clone, Copy)]
pub struct Header {
    pub parts: Parts,
    pub rules: usize,
    ghost some: { 0 < parts.number },
    ghost few: { rules ≤ 64 },
}
