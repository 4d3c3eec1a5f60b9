// Texts to measure with: sheets of about a given length.
ghost use Rattle.std.specs.Prelude.{◌<◌, length};

use std::alloc::{AllocError, Global};

// What most of a text is.
#[derive(Clone, Copy)]
pub enum Shape {
    // rules of forty terms, one for each 256 bytes
    Rules,
    // blanks after one rule
    Blanks,
    // stars and line feeds after one rule: comments of one byte
    Comments,
    // the digits of one right side
    Number,
}

// A rule of 253 bytes.
const RULE: &str =
    "1 x1 2 x2 3 x3 4 x4 5 x5 +6 x6 7 x7 -8 x8 9 x9 +0 x10 1 x11 -2 x12 3 x13 +4 x14 5 x15 -6 x16 7 x17 +8 x18 9 x19 -0 x20 1 x21 +2 x22 3 x23 -4 x24 5 x25 +6 x26 7 x27 -8 x28 9 x29 +0 x30 1 x31 -2 x32 3 x33 +4 x34 5 x35 6 x36 7 x37 8 x38 9 x39 0 x40 >= 9 ;\n";

impl Shape {
    pub fn name(self) -> &'static str {
        match self {
            Shape::Rules => "rules",
            Shape::Blanks => "blanks",
            Shape::Comments => "comments",
            Shape::Number => "a number",
        }
    }

    // A sheet of at most that many bytes, if there are 256 or more, and of nearly as many.
    pub fn text(self, heap: Global, bytes: usize) -> Result<String, AllocError> {
        let (rules, front, piece, back) = match self {
            Shape::Rules => (bytes / 256, "", RULE, ""),
            Shape::Blanks => (1, "1 x1 >= 1 ;", " ", ""),
            Shape::Comments => (1, "1 x1 >= 1 ;", "*\n", ""),
            Shape::Number => (1, "1 x1 >= ", "0", "1 ;"),
        };
        let mut text = format!(in heap; "* #variable= 40 #constraint= {rules}\n{front}")?;
        fill(&mut text, bytes.saturating_sub(back.len()), piece)?;
        text.push_str(back)?;
        Ok(text)
    }
}

// Adds a piece again and again, as often as it fits into that many bytes.
fn fill(text: &mut String, bytes: usize, piece: &str) -> Result<(), AllocError>
    requires { 0 < length piece.now }
{
    for _ in 0..bytes.saturating_sub(text.len()) / piece.len() {
        text.push_str(piece)?;
    }
    Ok(())
}
