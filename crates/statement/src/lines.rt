// The lines of a statement.
ghost use Rattle.std.specs.Prelude.{◌≡◌, Some};
ghost use Rattle.table.specs.Layout.{rules_of};
ghost use Rattle.board.specs.Board.{choice};
ghost use Rattle.statement.specs.Statement.{price_word, holdings_text, verdict_word, fare_text, rows_text, price_text, verdict_text};

use super::shown::Statement;
use board::words::Judgement;
use notation::shown::RuleText;
use std::fmt;
use table::checked::{Checked, Row};

// How many parts and rules the sheet has, and whether it has a price line.
#[derive(Clone, Copy)]
pub struct Holdings<'a> {
    pub sheet: Checked<'a>,
}

impl<'a> fmt::Display for Holdings<'a> {
    ghost output = { λ h. Some (holdings_text h.sheet.words.now) };

    fn fmt<W: fmt::Write>(&self, f: &mut fmt::Formatter<W>) -> fmt::Result {
        let parts = self.sheet.parts();
        let rules = self.sheet.rules();
        let line = price_word(self.sheet.is_priced());
        write!(
            f,
            "the sheet: parts: {parts}, rules: {rules}, price line: {line}\n"
        )
    }
}

fn price_word(priced: bool) -> &'static str
    ensures { result.now ≡ price_word priced }
{
    if priced { "yes" } else { "no" }
}

// One rule: its number, how it fares, and the rule itself.
#[derive(Clone, Copy)]
pub struct Fare<'a> {
    pub row: Row<'a>,
    pub judgement: Judgement,
}

impl<'a> fmt::Display for Fare<'a> {
    ghost output = { λ r. Some (fare_text r.row.sheet.words.now r.row.number r.judgement) };

    fn fmt<W: fmt::Write>(&self, f: &mut fmt::Formatter<W>) -> fmt::Result {
        let Fare { row, judgement } = *self;
        let number = row.number + 1;
        let verdict = verdict_word(judgement.is_met());
        let Judgement { reached, needed } = judgement;
        let rule = RuleText { row };
        write!(
            f,
            "{number:>4}  {verdict}  {reached:>7}  {needed:>6}  {rule}\n"
        )
    }
}

// Whether a rule is met, in seven columns.
fn verdict_word(met: bool) -> &'static str
    ensures { result.now ≡ verdict_word met }
{
    if met { "met    " } else { "BROKEN " }
}

// All rules.
#[derive(Clone, Copy)]
pub struct Rows<'a>(pub Statement<'a>);

impl<'a> fmt::Display for Rows<'a> {
    ghost output = { λ r. Some (rows_text r.0.sheet.words.now (choice r.0.board.marks) (rules_of r.0.sheet.words.now)) };

    #[tactic(auto, unfolding(crate::specs::Statement::rows_text))]
    fn fmt<W: fmt::Write>(&self, f: &mut fmt::Formatter<W>) -> fmt::Result {
        let Statement { sheet, board } = self.0;
        for rule in 0..sheet.rules() {
            let row = sheet.row(rule);
            let judgement = board.fares(&row);
            let fare = Fare { row, judgement };
            write!(f, "{fare}")?;
        }
        Ok(())
    }
}

#[derive(Clone, Copy)]
pub struct Price<'a>(pub Statement<'a>);

impl<'a> fmt::Display for Price<'a> {
    ghost output = { λ p. Some (price_text p.0.sheet.words.now (choice p.0.board.marks)) };

    fn fmt<W: fmt::Write>(&self, f: &mut fmt::Formatter<W>) -> fmt::Result {
        let Statement { sheet, board } = self.0;
        if sheet.is_priced() {
            let price = board.price(&sheet);
            write!(f, "its price: {price}\n")
        } else {
            write!(f, "its price: none, the sheet has no price line\n")
        }
    }
}

#[derive(Clone, Copy)]
pub struct Verdict<'a>(pub Statement<'a>);

impl<'a> fmt::Display for Verdict<'a> {
    ghost output = { λ v. Some (verdict_text v.0.sheet.words.now (choice v.0.board.marks)) };

    fn fmt<W: fmt::Write>(&self, f: &mut fmt::Formatter<W>) -> fmt::Result {
        let Statement { sheet, board } = self.0;
        let broken = board.broken(&sheet);
        let rules = sheet.rules();
        if broken == 0 {
            write!(f, "the board meets the sheet\n")
        } else {
            write!(
                f,
                "the board does NOT meet the sheet: {broken} of {rules} rules broken\n"
            )
        }
    }
}
