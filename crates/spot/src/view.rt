// A place of a text, and the line that it stands in.
ghost use Rattle.std.specs.Prelude.{◌^◌, ◌<◌, ◌≤◌};

// The line is the bytes from `start` to `end`, without the line end, and its number counts from 1.
#[derive(Clone, Copy, PartialEq, Eq, Debug)]
pub struct Spot {
    pub place: usize,
    pub line: usize,
    pub start: usize,
    pub end: usize,
    ghost before: { start ≤ place },
    ghost after: { place ≤ end },
    ghost small: { end < 2 ^ 63 },
}

// The bytes of a line that are shown.
#[derive(Clone, Copy, PartialEq, Eq, Debug)]
pub struct Window {
    pub from: usize,
    pub to: usize,
}
