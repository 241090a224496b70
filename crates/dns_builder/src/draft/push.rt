//! Pushing an item.
ghost use Rattle.std.specs.Prelude.{◌≡◌, ◌≤◌, ◌+◌, ◌*◌, ◌<◌, length, take, OnOk, OnErr, IfErr};
ghost use Rattle.std.specs.Int.{to_be_bytes, w16};
ghost use Rattle.dns_octets.specs.Builder.{before};
ghost use Rattle.dns_name.specs.RecordData.{page_of};
ghost use Rattle.dns_name.specs.Remembered.{patched};
ghost use Rattle.dns_builder.specs.Built.{Built, IsDraftOf};
ghost use Rattle.dns_builder.specs.Steps.{with_item, IsTakenBy, IsRefusedBy, KeepsLimits, counted_at};
ghost use Rattle.dns_builder.specs.Refused.{IsCountedBy, IsUncounted};
ghost use Rattle.dns_builder.specs.Seen.{draft_in, held_in};

use super::Draft;
use crate::item::Item;
use dns_name::Composer;
use dns_sections::PushError;

impl<Target: Composer> Draft<Target> {
    /// Appends the item and counts it in the section `number`, which must be the last. If the call fails, nothing
    /// changes.
    pub(crate) fn push_item<I: Item>(&mut self, number: usize, item: &I) -> Result<(), PushError>
        requires last { length (draft_in self.old).starts ≡ number + 1 }
        requires few { number < 4 }
        ensures ok { (built : Built) → IsDraftOf Target.spelling built (draft_in self.old)
            → OnOk result (IsDraftOf Target.spelling (with_item built (I.parts item.now)) (draft_in self.new)) }
        ensures taken { OnOk result (IsTakenBy Target.spelling number (draft_in self.old) (I.parts item.now)
            (I.IsLong item.now Target.spelling (draft_in self.old).page)) }
        ensures err { OnErr result ((draft_in self.new) ≡ (draft_in self.old)) }
        ensures why { IfErr result (IsRefusedBy Target.spelling number (draft_in self.old) (I.parts item.now)
            (I.IsLong item.now Target.spelling (draft_in self.old).page)) }
        ensures limits { KeepsLimits (draft_in self.old) (draft_in self.new) }
        ensures starts { (draft_in self.new).starts ≡ (draft_in self.old).starts }
        ensures stays { Target.stays (held_in self.old) (held_in self.new) }
    {
        let len = self.opt.target.octets().len();
        item.append_to(&mut self.opt.target)?;
        self.count_or_cut(number, len)
    }

    /// Counts an item that was appended at `len`, in the section `number`. If the call fails, cuts the item off.
    pub(super) fn count_or_cut(&mut self, number: usize, len: usize) -> Result<(), PushError>
        requires few { number < 4 }
        requires header { 12 ≤ len }
        ensures ok { OnOk result ((draft_in self.new) ≡ record (draft_in self.old) { page = page_of (patched (draft_in self.old).page.octets (4 + 2 * number) (to_be_bytes w16 (counted_at number (draft_in self.old) + 1))) (draft_in self.old).page.known }) }
        ensures taken { OnOk result (IsCountedBy number (draft_in self.old)) }
        ensures err { OnErr result ((draft_in self.new) ≡ record (draft_in self.old) { page = page_of (take len (draft_in self.old).page.octets) (before len (draft_in self.old).page.known) }) }
        ensures why { IfErr result (IsUncounted number (draft_in self.old)) }
        ensures stays { Target.stays (held_in self.old) (held_in self.new) }
    {
        let counted = self.count_item(number);
        if counted.is_err() {
            self.opt.target.truncate(len);
        }
        counted
    }

    /// Counts an item that was appended, in the section `number`. If the call fails, nothing changes.
    fn count_item(&mut self, number: usize) -> Result<(), PushError>
        requires { number < 4 }
        ensures ok { OnOk result ((draft_in self.new) ≡ record (draft_in self.old) { page = page_of (patched (draft_in self.old).page.octets (4 + 2 * number) (to_be_bytes w16 (counted_at number (draft_in self.old) + 1))) (draft_in self.old).page.known }) }
        ensures taken { OnOk result (IsCountedBy number (draft_in self.old)) }
        ensures err { OnErr result (self.new ≡ self.old) }
        ensures why { IfErr result (IsUncounted number (draft_in self.old)) }
        ensures stays { Target.stays (held_in self.old) (held_in self.new) }
    {
        if self.opt.target.len() >= self.limit {
            return Err(PushError::LimitExceeded);
        }
        let Some(count) = self.count(number).checked_add(1) else {
            return Err(PushError::CountOverflow);
        };
        self.opt.target.patch(4 + 2 * number, &count.to_be_bytes());
        Ok(())
    }

    /// Returns how many items the section `number` has.
    fn count(&self, number: usize) -> u16
        requires { number < 4 }
        ensures { result ≡ counted_at number (draft_in self.now) }
    {
        let octets = self.opt.target.octets();
        let place = 4 + 2 * number;
        u16::from_be_bytes([octets[place], octets[place + 1]])
    }
}
