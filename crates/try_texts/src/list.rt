// The lines of a list of texts.

// A text by its name, with what reading it should come to.
#[derive(Clone, Copy)]
pub struct Case<'a> {
    pub name: &'a str,
    // as it is written, with its escapes
    pub text: &'a str,
    pub expected: &'a str,
}

impl<'a> Case<'a> {
    // The case that a line writes: three fields, with a tabulator between each two.
    pub fn of(line: &'a str) -> Option<Case<'a>> {
        let (name, rest) = line.split_once('\t')?;
        let (text, expected) = rest.split_once('\t')?;
        Some(Case {
            name,
            text,
            expected,
        })
    }
}
