// Literals and terms as text.
ghost use Rattle.std.specs.Prelude.{Some};
ghost use Rattle.rules.specs.Words.{literal_words, term_words};

use super::term::{Literal, Term};
use std::fmt;

// A variable as x and its number, from 1, with a minus before it for the complement.
impl fmt::Display for Literal {
    ghost output = { λ l. Some (literal_words l) };

    fn fmt<W: fmt::Write>(&self, f: &mut fmt::Formatter<W>) -> fmt::Result {
        let number = self.variable.saturating_add(1);
        if self.negated {
            write!(f, "-x{number}")
        } else {
            write!(f, "x{number}")
        }
    }
}

// A term, as `2 -x1`.
impl fmt::Display for Term {
    ghost output = { λ t. Some (term_words t) };

    fn fmt<W: fmt::Write>(&self, f: &mut fmt::Formatter<W>) -> fmt::Result {
        let Term {
            coefficient,
            literal,
        } = *self;
        write!(f, "{coefficient} {literal}")
    }
}
