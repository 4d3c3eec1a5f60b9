// Rows, literals and rules as text.
ghost use Rattle.std.specs.Prelude.{Some};
ghost use Rattle.core_text.specs.Words.{terms_words, rule_words, literals_words, numbers_words};

use rules::term::{Literal, Rule, Term};
use std::fmt;

// The terms of a row, as `3 x1 + 2 -x3`; 0 where there is none.
#[derive(Clone, Copy)]
pub struct Terms<'a>(pub &'a [i32; 80]);

impl<'a> fmt::Display for Terms<'a> {
    ghost output = { λ t. Some (terms_words t.0.now) };

    fn fmt<W: fmt::Write>(&self, f: &mut fmt::Formatter<W>) -> fmt::Result {
        let mut between = "";
        for (variable, coefficient) in self.0.iter().enumerate() {
            if *coefficient != 0 {
                let term = Term {
                    coefficient: coefficient.unsigned_abs(),
                    literal: Literal {
                        variable,
                        negated: *coefficient < 0,
                    },
                };
                write!(f, "{between}{term}")?;
                between = " + ";
            }
        }
        if between.is_empty() {
            write!(f, "0")?;
        }
        Ok(())
    }
}

// A rule, as `3 x1 + 2 -x3 >= 4`.
#[derive(Clone, Copy)]
pub struct Written<'a>(pub &'a Rule);

impl<'a> fmt::Display for Written<'a> {
    ghost output = { λ w. Some (rule_words w.0.now) };

    fn fmt<W: fmt::Write>(&self, f: &mut fmt::Formatter<W>) -> fmt::Result {
        let terms = Terms(&self.0.coefficients);
        let degree = self.0.degree;
        write!(f, "{terms} >= {degree}")
    }
}

// The literals of a row that are in a set, as `x1 -x3`.
#[derive(Clone, Copy)]
pub struct Literals<'a> {
    pub row: &'a [i32; 80],
    pub members: &'a [bool; 80],
}

impl<'a> fmt::Display for Literals<'a> {
    ghost output = { λ l. Some (literals_words l.row.now l.members.now) };

    fn fmt<W: fmt::Write>(&self, f: &mut fmt::Formatter<W>) -> fmt::Result {
        let Literals { row, members } = *self;
        let mut between = "";
        for (variable, member) in members.iter().enumerate() {
            if *member {
                let literal = Literal {
                    variable,
                    negated: row[variable] < 0,
                };
                write!(f, "{between}{literal}")?;
                between = " ";
            }
        }
        Ok(())
    }
}

// The numbers, from 1, of the variables that a row has a term with, as `1,3`.
#[derive(Clone, Copy)]
pub struct Numbers<'a>(pub &'a [i32; 80]);

impl<'a> fmt::Display for Numbers<'a> {
    ghost output = { λ n. Some (numbers_words n.0.now) };

    fn fmt<W: fmt::Write>(&self, f: &mut fmt::Formatter<W>) -> fmt::Result {
        let mut between = "";
        for (variable, coefficient) in self.0.iter().enumerate() {
            if *coefficient != 0 {
                let number = variable + 1;
                write!(f, "{between}{number}")?;
                between = ",";
            }
        }
        Ok(())
    }
}
