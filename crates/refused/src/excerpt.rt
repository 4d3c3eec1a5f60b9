// What is printed of a fault, and of the line that it stands in.
ghost use Rattle.std.specs.Prelude.{◌≡◌, ◌<◌, min, length, map, Some};
ghost use Rattle.spot.specs.Spot.{Line, Shows};
ghost use Rattle.refused.specs.Refused.{shown_byte, dots_text, head_text, excerpt_text};

use faults::fault::{Refusal, RunFault};
use notation::shown::Blanks;
use spot::view::{Spot, Window};
use std::fmt;

// The refusal's three numbers, and what it says.
#[derive(Clone, Copy)]
pub struct Head(pub RunFault);

impl fmt::Display for Head {
    ghost output = { λ h. Some (head_text h.0) };

    fn fmt<W: fmt::Write>(&self, f: &mut fmt::Formatter<W>) -> fmt::Result {
        let fault = self.0;
        let Refusal {
            layer,
            number,
            place,
        } = Refusal::from(fault);
        write!(
            f,
            "the sheet is refused: layer {layer}, number {number}, place {place}\n{fault}\n"
        )
    }
}

// The line of a place, and what is shown of it.
#[derive(Clone, Copy)]
pub struct Excerpt<'a> {
    pub text: &'a [u8],
    pub spot: Spot,
    pub window: Window,
    ghost line: { Line text.now spot },
    ghost shows: { Shows spot window },
}

impl<'a> Excerpt<'a> {
    pub fn of(text: &'a [u8], place: usize) -> Excerpt<'a>
        ensures text { result.text.now ≡ text.now }
        ensures place { result.spot.place ≡ min place (length text.now) }
    {
        let spot = Spot::of(text, place);
        let window = spot.window();
        Excerpt { text, spot, window }
    }
}

// The line, or what is shown of it, and a caret under the place.
impl<'a> fmt::Display for Excerpt<'a> {
    ghost output = { λ e. Some (excerpt_text e.text.now e.spot e.window) };

    fn fmt<W: fmt::Write>(&self, f: &mut fmt::Formatter<W>) -> fmt::Result {
        let Excerpt { text, spot, window } = *self;
        let Window { from, to } = window;
        let line = spot.line;
        let column = spot.column();
        let before = dots(spot.start < from);
        let shown = Bytes(&text[from..to]);
        let after = dots(to < spot.end);
        let blanks = Blanks(before.len() + (spot.place - from));
        write!(
            f,
            "line {line}, column {column}:\n  {before}{shown}{after}\n  {blanks}^\n"
        )
    }
}

// What stands for a part of a line that is not shown.
fn dots(cut: bool) -> &'static str
    ensures { result.now ≡ dots_text cut }
{
    if cut { "..." } else { "" }
}

// Bytes as they are shown.
#[derive(Clone, Copy)]
pub struct Bytes<'a>(pub &'a [u8]);

impl<'a> fmt::Display for Bytes<'a> {
    ghost output = { λ b. Some (map shown_byte b.0.now) };

    fn fmt<W: fmt::Write>(&self, f: &mut fmt::Formatter<W>) -> fmt::Result {
        for byte in self.0 {
            let shown = shown(*byte);
            write!(f, "{shown}")?;
        }
        Ok(())
    }
}

// A byte as it is shown: a dot for one that does not print.
fn shown(byte: u8) -> char
    ensures value { result ≡ shown_byte byte }
    ensures bound { result < 128 }
{
    match byte {
        b' '..=b'~' => char::from(byte),
        _ => '.',
    }
}
