// What an engine answers to a step.
use rules::Mark;
use rules::term::Rule;

#[derive(Clone, Copy)]
pub enum Answer {
    // the question is still open
    Going,
    // marks that meet every held rule and every assumed literal; those past the variables say nothing
    Yes([Mark; 80]),
    // a rule that follows from the held ones and is broken when only the assumed literals are marked
    No(Rule),
}
