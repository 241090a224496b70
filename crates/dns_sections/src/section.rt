//! The three sections of records.
ghost use Rattle.std.specs.Prelude.{◌≡◌};
ghost use Rattle.dns_header.specs.HeaderCounts.{counts_of};
ghost use Rattle.dns_sections.specs.declared.section.Section.TheVariants.{Answer};
ghost use Rattle.dns_sections.specs.Sections.{following, counted};

use dns_header::HeaderCounts;

/// A record section of a message. Sections are ordered as in the message (RFC 1035 4.1).
#[derive(Clone, Copy, Debug, PartialEq, Eq, PartialOrd, Ord)]
pub enum Section {
    /// The records that answer the question.
    Answer,
    /// The records that point to an authority.
    Authority,
    /// The records that go with the others.
    Additional,
}

impl Section {
    /// Returns the answer section, which comes first.
    pub fn first() -> Self
        ensures { result ≡ Answer }
    {
        Section::Answer
    }

    /// Returns how many records the header counts in this section.
    pub(crate) fn count(self, counts: HeaderCounts) -> u16
        ensures { result ≡ counted (counts_of counts) self }
    {
        match self {
            Section::Answer => counts.ancount(),
            Section::Authority => counts.nscount(),
            Section::Additional => counts.arcount(),
        }
    }

    /// Returns the section after this one, or None after the last.
    pub(crate) fn next_section(self) -> Option<Self>
        ensures { result ≡ following self }
    {
        match self {
            Section::Answer => Some(Section::Authority),
            Section::Authority => Some(Section::Additional),
            Section::Additional => None,
        }
    }
}
