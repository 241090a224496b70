//! The octets, the header and the limit of a draft.
use super::Draft;
use dns_header::{Header, HeaderCounts};
use dns_name::Composer;

impl<Target: Composer> Draft<Target> {
    ghost use Rattle.std.specs.Prelude.{◌≡◌, ◌≤◌, take, drop, length};
    ghost use Rattle.dns_header.specs.HeaderFields.{fields_of};
    ghost use Rattle.dns_header.specs.HeaderCounts.{counts_of, counts_in};
    ghost use Rattle.dns_name.specs.RecordData.{page_of};
    ghost use Rattle.dns_name.specs.Remembered.{patched};
    ghost use Rattle.dns_builder.specs.Seen.{draft_in, held_in};

    /// Returns the target.
    pub(crate) fn as_target(&self) -> &Target
        ensures { result.now ≡ held_in self.now }
    {
        &self.opt.target
    }

    /// Returns the target.
    pub(crate) fn into_target(self) -> Target
        ensures target { result ≡ held_in self }
        ensures header { 12 ≤ length (Target.list (held_in self)) }
    {
        self.opt.target
    }

    /// Returns the octets of the message.
    pub(crate) fn as_slice(&self) -> &[u8]
        ensures octets { result.now ≡ (draft_in self.now).page.octets }
        ensures header { 12 ≤ length result.now }
    {
        self.opt.target.octets()
    }

    /// Returns the header without its counts.
    pub(crate) fn header(&self) -> Header
        ensures octets { result ≡ take 4 (draft_in self.now).page.octets }
        ensures said { fields_of result ≡ fields_of (draft_in self.now).page.octets }
    {
        Header::for_message_slice(self.as_slice())
    }

    /// Returns how many questions and records the message has.
    pub(crate) fn counts(&self) -> HeaderCounts
        ensures octets { result ≡ take 8 (drop 4 (draft_in self.now).page.octets) }
        ensures said { counts_of result ≡ counts_in (draft_in self.now).page.octets }
    {
        HeaderCounts::for_message_slice(self.as_slice())
    }

    /// Replaces the header; the counts stay.
    pub(crate) fn set_header(&mut self, header: Header)
        ensures four { length header ≡ 4 }
        ensures draft { draft_in self.new ≡ record (draft_in self.old) { page = page_of (patched (draft_in self.old).page.octets 0 header) (draft_in self.old).page.known } }
        ensures stays { Target.stays (held_in self.old) (held_in self.new) }
    {
        self.opt.target.patch(0, header.as_slice());
    }

    /// Returns the push limit, in octets.
    pub(crate) fn limit(&self) -> usize
        ensures { result ≡ (draft_in self.now).limit }
    {
        self.limit
    }

    /// Sets the push limit, in octets.
    pub(crate) fn set_limit(&mut self, limit: usize)
        ensures draft { draft_in self.new ≡ record (draft_in self.old) { limit = limit } }
        ensures target { held_in self.new ≡ held_in self.old }
    {
        self.limit = limit;
    }
}
