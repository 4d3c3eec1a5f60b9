// Reading a text token by token.
//
// The reader walks over the text as it was handed in and copies none of it. At each place the caller says which token
// may stand there; the reader returns it, with the bytes that it covers, and stands right behind it. If the bytes are
// none of that token the fault is `Misplaced` at the token's first byte, and if the text ends before the token is whole
// it is `Cut` at the text's length.
#![tactic(auto)]

ghost use Rattle.std.specs.Prelude.{◌≡◌, ℕ, ◌+◌, ◌-◌, ◌<◌, ◌≤◌, min, length, IfOk, Ok, Err};
ghost use Rattle.std.specs.List.{between};
ghost use Rattle.text.specs.Bytes.{belongs, stands, Run, spelling, decimal, number_of};
ghost use Rattle.text.specs.Tokens.{short, missing, Pass, Byte, Bytes, Spelt, Digits, Minus, Number as NumberForm, Name as NameForm, Limited, Gap, Comment, Line, low, high, limited, clamp};
ghost use Rattle.text.specs.Reading.{Step, told, seen, Covers, number_said, index_said, written, IsNumber, IsName, IsSign};

pub mod reader;

use faults::fault::TextFault;
use reader::{Class, Limit, Reader, Sign, Token};

// The most bytes that a text may have.
pub const TEXT_BYTES: usize = 16_384;

// One more than any number that may stand in a text.
const PAST_EVERY_LIMIT: u32 = 100_000_001;

// Refuses a text that is too long.
pub fn check_length(text: &[u8]) -> Result<(), TextFault>
    ensures { result ≡ short text.now }
{
    if text.len() > TEXT_BYTES {
        return Err(TextFault::TooLong);
    }
    Ok(())
}

impl Class {
    #[tactic(auto, unfolding(crate::specs::Bytes::belongs))]
    pub fn has(self, b: u8) -> bool
        ensures { result ≡ belongs self b }
    {
        match self {
            Class::Digit => b.is_ascii_digit(),
            // `matches!` takes twice as long over a text of blanks
            Class::Blank => b == b' ' || b == b'\t' || b == b'\n' || b == b'\r',
            Class::Inline => b != b'\n',
        }
    }
}

// The end of the longest run of bytes of the class from `from` on. It goes by places: over runs of one byte, as most are,
// an iterator of the bytes from there on takes a third more.
fn run_end(text: &[u8], from: usize, class: Class) -> usize
    requires { from ≤ length text.now }
    ensures { Run class text.now from result }
{
    (from..text.len())
        .find(
            |&at|
                requires { at < length text.now }
            { !class.has(text[at]) },
        )
        .unwrap_or(text.len())
}

// The number that the digits write or, where that is larger, one that is past every limit.
#[tactic(auto, unfolding(crate::specs::Bytes::decimal))]
fn capped(digits: &[u8]) -> u32
    ensures { result ≡ min 100000001 (decimal digits.now) }
{
    let mut sum: u32 = 0;
    // a fold is no plainer: nothing bounds its sum, so that each step would have to saturate
    for b in digits {
        sum = (sum * 10 + u32::from(b.saturating_sub(48))).min(PAST_EVERY_LIMIT);
    }
    sum
}

impl Sign {
    pub fn spelling(self) -> &'static [u8]
        ensures { result.now ≡ spelling self }
    {
        match self {
            Sign::Variables => b"* #variable=",
            Sign::Constraints => b"#constraint=",
            Sign::Minimise => b"min:",
            Sign::AtLeast => b">=",
            Sign::Equal => b"=",
            Sign::End => b";",
        }
    }
}

impl Limit {
    pub fn low(self) -> i32
        ensures { result ≡ low self }
    {
        match self {
            Limit::Parts => 1,
            Limit::Rules => 0,
            Limit::Price => -100_000,
            Limit::Coefficient => -1_000_000,
            Limit::RightSide => -100_000_000,
        }
    }

    pub fn high(self) -> i32
        ensures { result ≡ high self }
    {
        match self {
            Limit::Parts => 40,
            Limit::Rules => 64,
            Limit::Price => 100_000,
            Limit::Coefficient => 1_000_000,
            Limit::RightSide => 100_000_000,
        }
    }
}

impl<'a> Reader<'a> {
    pub fn new(text: &'a [u8]) -> Reader<'a>
        ensures { (result.text.now ≡ text.now) × (result.at ≡ 0) }
    {
        Reader { text, at: 0 }
    }

    // Is the next byte this one?
    pub fn stands_at(&self, b: u8) -> bool
        ensures { result ≡ stands self.now.text.now b self.now.at }
    {
        self.text.get(self.at).is_some_and(|next| *next == b)
    }

    // What is wrong here with a token that begins at `start`.
    fn missing_at(&self, start: usize) -> TextFault
        ensures { result ≡ missing self.now.text.now start self.now.at }
    {
        if self.at < self.text.len() {
            TextFault::Misplaced(start)
        } else {
            TextFault::Cut(self.at)
        }
    }

    // Passes as many bytes of the class as there are.
    #[tactic(auto, using(crate::specs::Tokens::passed))]
    pub fn pass(&mut self, class: Class)
        ensures { Step (Pass class) self.old self.new (Ok tt) }
    {
        self.at = run_end(self.text, self.at, class);
    }

    fn byte(&mut self, b: u8, start: usize) -> Result<(), TextFault>
        ensures { Step (λ t. Byte t b start) self.old self.new result }
    {
        if self.stands_at(b) {
            self.at += 1;
            Ok(())
        } else {
            Err(self.missing_at(start))
        }
    }

    // Passes one or more digits.
    #[tactic(auto, using(crate::specs::Tokens::some, crate::specs::Tokens::none, crate::proofs::Runs::empty))]
    fn digits(&mut self, start: usize) -> Result<(), TextFault>
        ensures { Step (λ t. Digits t start) self.old self.new (told (decimal (between self.old.at self.new.at self.old.text.now)) result) }
    {
        let end = run_end(self.text, self.at, Class::Digit);
        if self.at < end {
            self.at = end;
            Ok(())
        } else {
            Err(self.missing_at(start))
        }
    }

    // Passes a plus or a minus, if one stands here, and says whether it is a minus.
    fn minus(&mut self) -> bool
        ensures { Step Minus self.old self.new (Ok result) }
    {
        let minus = self.stands_at(b'-');
        if minus || self.stands_at(b'+') {
            self.at += 1;
        }
        minus
    }

    // The bytes from `at` up to here, of the text itself.
    fn since(&self, at: usize) -> &'a [u8]
        requires { at ≤ self.now.at }
        ensures { result.now ≡ between at self.now.at self.now.text.now }
    {
        &self.text[at..self.at]
    }

    // A number: an optional sign and digits.
    pub fn number(&mut self) -> Result<Token<'a>, TextFault>
        ensures reads { Step NumberForm self.old self.new (seen written result) }
        ensures covers { Covers self.old self.new result }
        ensures kind { IfOk result IsNumber }
    {
        let at = self.at;
        self.minus();
        self.digits(at)?;
        let bytes = self.since(at);
        Ok(Token::Number { at, bytes })
    }

    // The name of a part: `x` and digits.
    pub fn name(&mut self) -> Result<Token<'a>, TextFault>
        ensures reads { Step NameForm self.old self.new (seen index_said result) }
        ensures covers { Covers self.old self.new result }
        ensures kind { IfOk result IsName }
    {
        let at = self.at;
        self.byte(b'x', at)?;
        self.digits(at)?;
        let bytes = self.since(at);
        Ok(Token::Name { at, bytes })
    }

    // A token that is spelt in one way only.
    pub fn sign(&mut self, sign: Sign) -> Result<Token<'a>, TextFault>
        ensures reads { Step (λ t. Spelt t sign) self.old self.new (told tt result) }
        ensures covers { Covers self.old self.new result }
        ensures kind { IfOk result IsSign }
    {
        let at = self.at;
        self.spell(sign.spelling(), at)?;
        let bytes = self.since(at);
        Ok(Token::Sign { at, bytes })
    }

    // Passes these bytes, of a token that begins at `start`.
    fn spell(&mut self, spelling: &[u8], start: usize) -> Result<(), TextFault>
        ensures { Step (λ t. Bytes t start spelling.now) self.old self.new result }
    {
        for b in spelling {
            self.byte(*b, start)?;
        }
        Ok(())
    }

    // A number within its limits.
    pub fn value(&mut self, limit: Limit) -> Result<i32, TextFault>
        ensures { Step (λ t. Limited t limit) self.old self.new result }
    {
        self.number()?.value(limit)
    }

    // Passes blanks and comments: each from a star to the end of its line, or of the text.
    pub fn gap(&mut self)
        ensures { Step Gap self.old self.new (Ok tt) }
    {
        self.pass(Class::Blank);
        while self.stands_at(b'*') {
            self.comment();
        }
    }

    // Passes one comment and the blanks after it.
    fn comment(&mut self)
        ensures { Step (λ t. Comment t tt) self.old self.new (Ok tt) }
    {
        self.pass(Class::Inline);
        self.pass(Class::Blank);
    }

    // Passes the rest of a line, through its line feed.
    pub fn line(&mut self) -> Result<(), TextFault>
        ensures { Step Line self.old self.new result }
    {
        self.pass(Class::Inline);
        let at = self.at;
        self.byte(b'\n', at)
    }
}

impl Token<'_> {
    // The number that the token writes, if it lies within its limits. No other token can stand for a number.
    pub fn value(self, limit: Limit) -> Result<i32, TextFault>
        ensures { result ≡ number_said limit self.entry }
    {
        match self {
            Token::Number { at, bytes } => value_within(bytes, limit, at),
            Token::Name { at, .. } | Token::Sign { at, .. } => Err(TextFault::Misplaced(at)),
        }
    }

    // The part that a name token names, or a number past every limit; 0 for any other token.
    pub fn index(self) -> usize
        ensures { result ≡ min 100000001 (index_said self.entry) }
    {
        match self {
            Token::Name { bytes, .. } => capped(bytes.get(1..).unwrap_or_default()) as usize,
            Token::Number { .. } | Token::Sign { .. } => 0,
        }
    }
}

// The number that a sign and digits, or digits alone, write, if it lies within its limits.
fn value_within(bytes: &[u8], limit: Limit, at: usize) -> Result<i32, TextFault>
    ensures { result ≡ limited limit at (number_of bytes.now) }
{
    let value = clamped(bytes);
    if (limit.low()..=limit.high()).contains(&value) {
        Ok(value)
    } else {
        Err(TextFault::Beyond(at))
    }
}

// The number that a sign and digits, or digits alone, write or, where that is larger in size, one past every limit.
fn clamped(bytes: &[u8]) -> i32
    ensures { result ≡ clamp (number_of bytes.now) }
{
    match bytes {
        [b'-', digits @ ..] => -(capped(digits) as i32),
        [b'+', digits @ ..] => capped(digits) as i32,
        digits => capped(digits) as i32,
    }
}
