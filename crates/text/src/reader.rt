// The types that reading goes by: classes of bytes, fixed spellings, limits, tokens and the reader itself.
ghost use Rattle.std.specs.Prelude.{◌≤◌, length};

// What runs of bytes are made of.
#[derive(Clone, Copy)]
pub enum Class {
    // 0 to 9
    Digit,
    // a tabulator, a line feed, a carriage return or a space
    Blank,
    // any byte but a line feed
    Inline,
}

// The tokens that are spelt in one way only.
#[derive(Clone, Copy)]
pub enum Sign {
    // `* #variable=`
    Variables,
    // `#constraint=`
    Constraints,
    // `min:`
    Minimise,
    // `>=`
    AtLeast,
    // `=`
    Equal,
    // `;`
    End,
}

// What a number is, and with it the limits that it lies in.
#[derive(Clone, Copy)]
pub enum Limit {
    // the header's number of parts: 1 to 40
    Parts,
    // the header's number of rules: 0 to 64
    Rules,
    // a price: -100,000 to 100,000
    Price,
    // a rule's coefficient: -1,000,000 to 1,000,000
    Coefficient,
    // a rule's right side: -100,000,000 to 100,000,000
    RightSide,
}

// A token borrows the bytes of the text that it covers, from the offset `at` on.
#[derive(Clone, Copy)]
pub enum Token<'a> {
    // an optional sign and digits
    Number { at: usize, bytes: &'a [u8] },
    // `x` and digits
    Name { at: usize, bytes: &'a [u8] },
    // one of the fixed spellings
    Sign { at: usize, bytes: &'a [u8] },
}

// The text as it was handed in, and how far it has been read.
#[derive(Drop)]
pub struct Reader<'a> {
    pub text: &'a [u8],
    pub at: usize,
    ghost inside: { at ≤ length text.now },
}
