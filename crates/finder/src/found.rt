// What a search for a board comes to: three outcomes, and none of them is an error, so each has its own name and no
// `Result` of an `Option` stands for them.
use board::Board;

#[derive(Clone, Copy)]
pub enum Found {
    // this board meets the sheet
    Fits(Board),
    // no board does
    Nothing,
    // the allowance did not suffice to tell
    Unfinished,
}

// What was found, and the steps that the engine made.
#[derive(Clone, Copy)]
pub struct Finding {
    pub found: Found,
    pub steps: u64,
}
