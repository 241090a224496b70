//! Going on after a row that was refused.
ghost use Rattle.std.specs.Prelude.{◌≡◌, Some, None, Ok, OnOk, OnErr};
ghost use Rattle.dns_zonefile.specs.PassedOver.{PassesOver};
ghost use Rattle.dns_zonefile.specs.ReaderSeen.{reader_of, refused_in};
ghost use Rattle.dns_zonefile.specs.declared.error.Error.{Error as ErrorOf};

use super::Zonefile;
use dns_entry_scanner::{RowFound, next_line, read_row};
use std::alloc::AllocError;

impl Zonefile {
    /// Passes over the row that was refused or, where the text is cut into no row, over its line. It counts as an entry.
    /// The rows after it are then read as if it were not there.
    ///
    /// Does nothing if no row was refused. Fails if out of memory, and then changes nothing.
    #[tactic(auto, using(crate::proofs::PassedOver::over_line, crate::proofs::PassedOver::over_end))]
    pub fn pass_over(&mut self) -> Result<(), AllocError>
        ensures none { refused_in self.old ≡ None → self.new ≡ self.old }
        ensures over { (error : ErrorOf) → refused_in self.old ≡ Some error
            → OnOk result (PassesOver (reader_of self.old) (reader_of self.new)) }
        ensures unrefused { OnOk result (refused_in self.new ≡ None) }
        ensures same { OnErr result ((reader_of self.new ≡ reader_of self.old) × (refused_in self.new ≡ refused_in self.old)) }
    {
        if self.refused.is_none() {
            return Ok(());
        }
        match read_row(self.text.as_slice(), self.place, &mut self.spans)? {
            RowFound::Row { next, .. } => {
                self.place = next;
                self.count += 1;
                self.refused = None;
                return Ok(());
            }
            RowFound::Broken => {
                self.place = next_line(&self.text, self.place);
                self.count += 1;
                self.refused = None;
                return Ok(());
            }
            RowFound::End => {}
        }
        self.refused = None;
        Ok(())
    }
}
