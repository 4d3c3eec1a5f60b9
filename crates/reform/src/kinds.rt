// Prices, the room that a reformulation needs, and what comes of one.
ghost use Rattle.std.specs.Prelude.{◌≡◌, ◌+◌, ◌≤◌, Some};
ghost use Rattle.reform_laws.specs.Reform.{fresh};
ghost use Rattle.reform.specs.Words.{unreformed_words};

use rules::term::Rule;
use std::error::Error;
use std::fmt;

// A price: a constant, and a weight for each variable, negative where the weighted literal is the complement. A marking costs
// the constant and the weights of the true literals.
#[derive(Clone, Copy)]
pub struct Price {
    pub constant: u64,
    pub weights: [i32; 80],
}

// Fresh variables and rules: how many are needed, or left.
#[derive(Clone, Copy)]
pub struct Room {
    pub variables: usize,
    pub rules: usize,
}

// Fresh variables: so many, after the variables that there are.
#[derive(Clone, Copy)]
pub struct Fresh {
    pub variables: usize,
    pub number: usize,
    ghost within: { variables + number ≤ 80 },
}

impl Fresh {
    // Whether a variable is one of them.
    pub fn has(self, i: usize) -> bool
        ensures { result ≡ fresh self.variables self.number i }
    {
        self.variables <= i && i < self.variables + self.number
    }
}

// The rules that tie the fresh variables to the literals of a count rule.
#[derive(Clone, Copy)]
pub enum NewRule {
    // as many of the literals are true as the count and the fresh variables say, or more
    AtLeast,
    // as many, or fewer
    AtMost,
    // the fresh variable after this one, counted from 0, is true only where this one is
    Order(usize),
}

// A price reformulated by a count rule: the fresh variables come after the variables that there were.
#[derive(Clone, Copy)]
pub struct Reformulation {
    pub price: Price,
    pub rule: Rule,
    pub variables: usize,
    pub fresh: usize,
    ghost within: { variables + fresh ≤ 80 },
    ghost counted: { rule.degree + fresh ≤ 80 },
}

// Why a price is not reformulated by a count rule.
#[derive(Clone, Copy, PartialEq, Eq, Debug)]
pub enum Unreformed {
    // the rule names a variable that there is not, or a literal that weighs less than the rule says; or a limit is passed
    Unsuited,
    // too few fresh variables or rules are left
    NoRoom,
}

impl fmt::Display for Unreformed {
    ghost output = { λ e. Some (unreformed_words e) };

    fn fmt<W: fmt::Write>(&self, f: &mut fmt::Formatter<W>) -> fmt::Result {
        match self {
            Unreformed::Unsuited => write!(f, "it does not suit the price"),
            Unreformed::NoRoom => write!(f, "there is no room for it"),
        }
    }
}

impl Error for Unreformed {}
