// What is wrong with the bytes of a text, wherever they stand in a sheet.
#[derive(Clone, Copy, PartialEq, Eq, Debug)]
pub enum TextFault {
    // more than 16,384 bytes
    TooLong,
    // the token that begins at this byte cannot stand there
    Misplaced(usize),
    // the number that begins at this byte is beyond its limits
    Beyond(usize),
    // the text, which has this many bytes, ends in a token, the header line, the price line or a rule
    Cut(usize),
}

// What is wrong with what a text says, though each token may stand where it does.
#[derive(Clone, Copy, PartialEq, Eq, Debug)]
pub enum SheetFault {
    Text(TextFault),
    // the part named at this byte is part 0 or not declared by the header
    Unknown(usize),
    // the part named at this byte is named before in the same sum
    Repeated(usize),
    // the header announces another number of rules: the first surplus rule begins here, or the text ends here
    Count(usize),
    // the rule whose comparison sign stands here finds no row left in the table
    NoRoom(usize),
}

// Why a call is refused.
#[derive(Clone, Copy, PartialEq, Eq, Debug)]
pub enum RunFault {
    Sheet(SheetFault),
    // the table does not have exactly 2,668 words
    TableLength,
    // this word is the first that breaks the table's layout
    Layout(usize),
}

// Why a holder of rules or an engine refuses a call.
#[derive(Clone, Copy, PartialEq, Eq, Debug)]
pub enum EngineFault {
    // there would be this many variables, which is not 1 to 80, or none would be added to them
    Variables(usize),
    // no more rules than this many can be held
    Full(usize),
    // the term or literal of this index is out of range or repeats a variable; at the number of terms, the degree is out
    // of range
    Term(usize),
    // there is no rule of this index, or its degree would be lowered or lifted too far
    Rule(usize),
    // no question is open
    NoQuestion,
}

// What is told of a fault: the layer that found it, its number and its place.
#[derive(Clone, Copy, PartialEq, Eq, Debug)]
pub struct Refusal {
    pub layer: u8,
    pub number: u8,
    pub place: usize,
}
