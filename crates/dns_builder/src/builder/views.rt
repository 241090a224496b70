//! The octets, the header and the push limit of a builder.
use super::SectionBuilder;
use crate::section::BuilderSection;
use dns_header::{Header, HeaderCounts};
use dns_name::{Composer, FreezeBuilder, Octets};
use dns_sections::Message;

impl<Target: Composer, S: BuilderSection> SectionBuilder<Target, S> {
    ghost use Rattle.std.specs.Prelude.{◌≡◌, ◌≤◌, ◌↔◌, IsNone, IfSome, length};
    ghost use Rattle.dns_header.specs.HeaderCounts.{counts_of, counts_in};
    ghost use Rattle.dns_header.specs.HeaderFields.{fields_of};
    ghost use Rattle.dns_sections.specs.Message.{message_octets};
    ghost use Rattle.dns_builder.specs.Built.{Built, IsDraftOf, counts_octets};
    ghost use Rattle.dns_builder.specs.Steps.{with_header, KeepsLimits};
    ghost use Rattle.dns_builder.specs.Seen.{draft_of, target_in};

    /// Returns the header without its counts.
    pub fn header(&self) -> Header
        ensures built { (built : Built) → IsDraftOf Target.spelling built (draft_of self.now) → result ≡ built.header }
        ensures said { fields_of result ≡ fields_of (draft_of self.now).page.octets }
    {
        self.draft.header()
    }

    /// Replaces the header. The counts stay.
    pub fn set_header(&mut self, header: Header)
        ensures built { (built : Built) → IsDraftOf Target.spelling built (draft_of self.old)
            → IsDraftOf Target.spelling (with_header built header) (draft_of self.new) }
        ensures limits { KeepsLimits (draft_of self.old) (draft_of self.new) }
        ensures stays { Target.stays (target_in self.old) (target_in self.new) }
    {
        self.draft.set_header(header);
    }

    /// Returns how many questions and records the message has.
    pub fn counts(&self) -> HeaderCounts
        ensures built { (built : Built) → IsDraftOf Target.spelling built (draft_of self.now)
            → result ≡ counts_octets built.sections }
        ensures said { counts_of result ≡ counts_in (draft_of self.now).page.octets }
    {
        self.draft.counts()
    }

    /// Sets the push limit, in octets. A push fails if the message would be as long or longer.
    pub fn set_push_limit(&mut self, limit: usize)
        ensures draft { draft_of self.new ≡ record (draft_of self.old) { limit = limit } }
        ensures target { target_in self.new ≡ target_in self.old }
    {
        self.draft.set_limit(limit);
    }

    /// Clears the push limit: sets it to `usize::MAX`.
    pub fn clear_push_limit(&mut self)
        ensures draft { draft_of self.new ≡ record (draft_of self.old) { limit = usize.MAX } }
        ensures target { target_in self.new ≡ target_in self.old }
    {
        self.draft.set_limit(usize::MAX);
    }

    /// Returns the push limit, or None if it is `usize::MAX`.
    pub fn push_limit(&self) -> Option<usize>
        ensures none { IsNone result ↔ ((draft_of self.now).limit ≡ usize.MAX) }
        ensures some { IfSome result (λ limit. limit ≡ (draft_of self.now).limit) }
    {
        let limit = self.draft.limit();
        if limit == usize::MAX {
            return None;
        }
        Some(limit)
    }

    /// Returns the target.
    pub fn as_target(&self) -> &Target
        ensures { result.now ≡ target_in self.now }
    {
        self.draft.as_target()
    }

    /// Returns the octets of the message.
    pub fn as_slice(&self) -> &[u8]
        ensures octets { result.now ≡ (draft_of self.now).page.octets }
        ensures header { 12 ≤ length result.now }
    {
        self.draft.as_slice()
    }

    /// Returns the message built so far.
    pub fn as_message(&self) -> Message<&[u8]>
        ensures { message_octets result ≡ (draft_of self.now).page.octets }
    {
        match Message::from_slice(self.as_slice()) {
            Ok(message) => message,
            Err(_) => unreachable!(),
        }
    }
}

impl<Target: Composer + FreezeBuilder, S: BuilderSection> SectionBuilder<Target, S> {
    ghost use Rattle.std.specs.Prelude.{◌≡◌};
    ghost use Rattle.dns_sections.specs.Message as message;
    ghost use Rattle.dns_builder.specs.Seen.{draft_of, target_in};

    /// Returns the finished message.
    pub fn into_message(self) -> Message<Target::Octets>
        ensures { message.octets_in ⟦<Target::Octets as Octets>⟧.list result ≡ (draft_of self).page.octets }
    {
        match Message::try_from_octets(self.draft.into_target().freeze()) {
            Ok(message) => message,
            Err(_) => unreachable!(),
        }
    }
}
