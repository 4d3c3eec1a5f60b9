// The sheet as a holder of rules.
ghost use Rattle.std.specs.Prelude.{◌<◌};
ghost use Rattle.ledger.specs.View.{held_by, sheet_limits};
ghost use Rattle.ledger.specs.Taking.{Adds};
ghost use Rattle.ledger.specs.Reading.{held_few, held_room, held_fits};

use super::rows::{breaks, rule_at, write_row};
use super::state::Sheet;
use engine::holder::RuleHolder;
use faults::fault::EngineFault;
use rules::Mark;
use rules::term::{Rule, Term};
use store::{bad_term, row};
use table::ROWS;

// The greatest coefficient and the greatest degree.
const MOST_COEFFICIENT: u32 = table::MOST_COEFFICIENT as u32;

const MOST_DEGREE: u32 = table::MOST_DEGREE as u32;

impl RuleHolder for Sheet {
    ghost held = { λ s. held_by s.words };

    ghost limits = { sheet_limits };

    ghost adds = { Adds };

    ghost few = { λ s. held_few s.words s.fine };

    ghost room = { λ s. held_room s.words s.fine };

    ghost fits = { λ s k l. held_fits s.words s.fine k l };

    fn variables(&self) -> usize {
        self.checked().parts()
    }

    fn rules(&self) -> usize {
        self.checked().rules()
    }

    fn rule(&self, k: usize) -> Result<Rule, EngineFault> {
        let table = self.checked();
        if k >= table.rules() {
            return Err(EngineFault::Rule(k));
        }
        Ok(rule_at(&table.row(k)))
    }

    fn add(&mut self, terms: &[Term], degree: u32) -> Result<(), EngineFault> {
        let table = self.checked();
        let parts = table.parts();
        let rules = table.rules();
        if rules >= ROWS {
            return Err(EngineFault::Full(ROWS));
        }
        if let Some(i) = bad_term(terms, parts, MOST_COEFFICIENT) {
            return Err(EngineFault::Term(i));
        }
        if MOST_DEGREE < degree {
            return Err(EngineFault::Term(terms.len()));
        }
        let row = row(terms, parts, MOST_COEFFICIENT);
        write_row(&mut self.words, rules, degree, &row);
        self.words[1] = rules as i32 + 1;
        Ok(())
    }

    fn first_broken(&self, marks: &[Mark; 80]) -> Option<usize> {
        let table = self.checked();
        (0..table.rules()).find(
            |&k|
                requires { k < 64 }
            { breaks(&table.row(k), marks) },
        )
    }
}
