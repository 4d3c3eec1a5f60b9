// Literals, terms and rules as values. Variables are counted from 0: the parts of a sheet come first, and after them the
// variables that a search adds.

// The variables that a rule can speak of: forty parts and forty more.
pub const WIDTH: usize = 80;

// A variable, or its complement where `negated` is true.
#[derive(Clone, Copy, PartialEq, Eq, Debug, Default)]
pub struct Literal {
    pub variable: usize,
    pub negated: bool,
}

// A literal and how much it gives where it is true.
#[derive(Clone, Copy, PartialEq, Eq, Debug, Default)]
pub struct Term {
    pub coefficient: u32,
    pub literal: Literal,
}

// The coefficients of the true literals together are at least the degree. Each variable has one coefficient: negative
// where the rule's literal is the complement, 0 where the rule has no term with that variable.
#[derive(Clone, Copy, PartialEq, Eq, Debug, Default)]
pub struct Rule {
    pub coefficients: [i32; 80],
    pub degree: u32,
}
