// What a text says: the grammar of sheets and the table of a sheet are in specs/. There is no code here but the functions
// whose contracts are theorems about them.
#![tactic(auto)]

ghost use Rattle.opb.specs.Language.{SameLanguage};
ghost use Rattle.opb.specs.Sheets.{OneReading};

// A text says one sheet at most, is refused for one fault at most, and never both.
pub fn reading_is_unique()
    ensures { OneReading }
{}

// What the reader's grammar makes of a text is what the language of sheets says of it, in both directions.
#[tactic(auto, using(crate::proofs::Whole::same_language))]
pub fn reading_is_the_language()
    ensures { SameLanguage }
{}
