//! Targets of copied records, section by section (RFC 1035 4.1).
ghost use Rattle.dns_sections.specs.Copied.{Pushes};

use crate::PushError;
use dns_header::ComposeRecord;

/// A target for the records of a section, which leads to the target for those of the next section.
///
/// `pushes` relates the target before and after a push, and `leads_to` the target and the next one.
pub trait RecordTarget: Sized + Drop {
    /// The target for the records of the next section.
    type Next;

    ghost pushes: { Pushes Self };

    ghost leads_to: { Self → Self.Next → Type 0 };

    /// Appends a record to the section. Fails with the reason why the target does not take it.
    fn push_record<R: ComposeRecord>(&mut self, item: &R) -> Result<(), PushError>
        ensures { pushes self.old (R.written item.now) result self.new };

    /// Ends the section, and begins the next one.
    fn into_next(self) -> Self::Next
        ensures { leads_to self result };
}
