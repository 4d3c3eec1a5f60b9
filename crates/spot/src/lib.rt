// Where a byte of a text stands: its line, and the part of the line that is shown around it.
#![tactic(auto)]

ghost use Rattle.std.specs.Prelude.{◌≡◌, ◌+◌, ◌≤◌, min, length};
ghost use Rattle.spot.specs.Spot.{Begins, Ends, Line, Shows, Unbroken};

pub mod view;

use view::{Spot, Window};

// How many bytes of a long line are shown, and at most how many of them before the place.
const WIDTH: usize = 72;

const BEFORE: usize = 48;

impl Spot {
    // The line of a place. A place past the end of the text is its end.
    pub fn of(text: &[u8], place: usize) -> Spot
        ensures place { result.place ≡ min place (length text.now) }
        ensures line { Line text.now result }
    {
        let place = place.min(text.len());
        let before = &text[..place];
        Spot {
            place,
            line: before.iter().filter(|byte| **byte == b'\n').count() + 1,
            start: line_start(before),
            end: place + line_left(&text[place..]),
        }
    }

    // The place's column in its line, from 1.
    pub fn column(&self) -> usize
        ensures { result + self.now.start ≡ self.now.place + 1 }
    {
        self.place - self.start + 1
    }

    // What is shown of the line: all of a short one, and of a long one some bytes around the place.
    pub fn window(&self) -> Window
        ensures { Shows self.now result }
    {
        if self.end - self.start <= WIDTH {
            return Window {
                from: self.start,
                to: self.end,
            };
        }
        let from = self.start.max(self.place.saturating_sub(BEFORE));
        let to = self.end.min(from + WIDTH);
        Window { from, to }
    }
}

// Where the last line of these bytes begins.
fn line_start(before: &[u8]) -> usize
    ensures within { result ≤ length before.now }
    ensures begins { Begins before.now result }
    ensures unbroken { Unbroken before.now result (length before.now) }
{
    match before.iter().rposition(|byte| *byte == b'\n') {
        Some(at) => at + 1,
        None => 0,
    }
}

// How many bytes there are before the first line end, or in all.
fn line_left(after: &[u8]) -> usize
    ensures within { result ≤ length after.now }
    ensures ends { Ends after.now result }
    ensures unbroken { Unbroken after.now 0 result }
{
    after
        .iter()
        .position(|byte| *byte == b'\n')
        .unwrap_or(after.len())
}
