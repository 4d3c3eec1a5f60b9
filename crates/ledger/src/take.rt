// A sheet made of a table, and the table that it keeps.
ghost use Rattle.std.specs.Prelude.{◌≡◌};
ghost use Rattle.table.specs.Layout.{Sound};
ghost use Rattle.ledger.specs.View.{held_by, SameMeaning};
ghost use Rattle.ledger.specs.Taking.{Taken};

use super::state::Sheet;
use faults::fault::RunFault;
use table::checked::Checked;
use table::{WORDS, check};

impl Sheet {
    // The sheet of a table that has the layout. It has a name of its own: a `TryFrom` would be a second name for one call.
    pub fn from_table(table: &[i32]) -> Result<Sheet, RunFault>
        ensures { Taken table.now result }
    {
        check(table)?;
        let mut words = [0; WORDS];
        words.copy_from_slice(table);
        Ok(Sheet { words })
    }

    // The words of the table. A choice of parts meets them exactly where it meets every rule that the sheet holds.
    pub fn table(&self) -> &[i32]
        ensures words { result.now ≡ self.now.words }
        ensures sound { Sound result.now }
        ensures means { SameMeaning result.now (held_by self.now.words) }
    {
        &self.words
    }

    // The table, to be read by name.
    pub fn checked(&self) -> Checked<'_>
        ensures { result.words.now ≡ self.now.words }
    {
        Checked::new(self.table())
    }
}
