//! Builders as targets of copied records.
use super::SectionBuilder;
use crate::section::RecordsSection;
use dns_header::ComposeRecord;
use dns_name::Composer;
use dns_sections::{PushError, RecordTarget};

/// The target of the next section is the builder of that section. The additional section is its own next one.
impl<Target: Composer + Drop, S: RecordsSection> RecordTarget for SectionBuilder<Target, S> {
    ghost use Rattle.std.specs.Prelude.{◌-◌};
    ghost use Rattle.dns_builder.specs.Moved.{MovesTo};
    ghost use Rattle.dns_builder.specs.Pushed.{PushesRecord};
    ghost use Rattle.dns_builder.specs.Seen.{draft_of, target_in};

    type Next = SectionBuilder<Target, S::Next>;

    ghost pushes = { λ old item result new. PushesRecord Target.spelling (S.number - 1) (draft_of old) item result (draft_of new)
        × Target.stays (target_in old) (target_in new) };

    ghost leads_to = { λ old new. MovesTo Target.spelling S.Next.number (draft_of old) (draft_of new)
        × Target.stays (target_in old) (target_in new) };

    fn push_record<R: ComposeRecord>(&mut self, item: &R) -> Result<(), PushError> {
        SectionBuilder::push_record(self, item)
    }

    fn into_next(self) -> Self::Next {
        self.go_to()
    }
}
