//! The sections of a message.
ghost use Rattle.std.specs.Prelude.{◌≡◌, MatchResult};
ghost use Rattle.dns_sections.specs.Message.{octets_in};
ghost use Rattle.dns_sections.specs.Questions.{first_question};
ghost use Rattle.dns_sections.specs.Sections.{IsAllOf, IsSectionOf, IsOutOfReach};
ghost use Rattle.dns_sections.specs.Seen.{all_at, questions_at, records_at};
ghost use Rattle.dns_sections.specs.declared.section.Section.TheVariants.{Answer, Authority, Additional};

use crate::{Message, MessageIter, QuestionSection, RecordSection};
use dns_name::{Octets, ParseError};

impl<Octs: Octets> Message<Octs> {
    /// Returns the question section.
    pub fn question(&self) -> QuestionSection<'_>
        ensures { questions_at result ≡ first_question (octets_in Octs.list self.now) }
    {
        QuestionSection::of_message(self.as_slice())
    }

    /// Returns the zone section of an update, which is its question section (RFC 2136 2.3).
    pub fn zone(&self) -> QuestionSection<'_>
        ensures { questions_at result ≡ first_question (octets_in Octs.list self.now) }
    {
        self.question()
    }

    /// Returns the answer section. Fails with the error of the first question that cannot be skipped.
    pub fn answer(&self) -> Result<RecordSection<'_>, ParseError>
        ensures { MatchResult result (λ found. IsSectionOf (octets_in Octs.list self.now) Answer (records_at found))
            (IsOutOfReach (octets_in Octs.list self.now) Answer) }
    {
        self.question().next_section()
    }

    /// Returns the prerequisite section of an update, which is its answer section (RFC 2136 2.4). Fails as `answer`
    /// does.
    pub fn prerequisite(&self) -> Result<RecordSection<'_>, ParseError>
        ensures { MatchResult result (λ found. IsSectionOf (octets_in Octs.list self.now) Answer (records_at found))
            (IsOutOfReach (octets_in Octs.list self.now) Answer) }
    {
        self.answer()
    }

    /// Returns the authority section. Fails with the error of the first question or record before it that cannot be
    /// skipped.
    pub fn authority(&self) -> Result<RecordSection<'_>, ParseError>
        ensures { MatchResult result (λ found. IsSectionOf (octets_in Octs.list self.now) Authority (records_at found))
            (IsOutOfReach (octets_in Octs.list self.now) Authority) }
    {
        self.answer()?.following()
    }

    /// Returns the update section of an update, which is its authority section (RFC 2136 2.5). Fails as `authority`
    /// does.
    pub fn update(&self) -> Result<RecordSection<'_>, ParseError>
        ensures { MatchResult result (λ found. IsSectionOf (octets_in Octs.list self.now) Authority (records_at found))
            (IsOutOfReach (octets_in Octs.list self.now) Authority) }
    {
        self.authority()
    }

    /// Returns the additional section. Fails with the error of the first question or record before it that cannot be
    /// skipped.
    pub fn additional(&self) -> Result<RecordSection<'_>, ParseError>
        ensures { MatchResult result (λ found. IsSectionOf (octets_in Octs.list self.now) Additional (records_at found))
            (IsOutOfReach (octets_in Octs.list self.now) Additional) }
    {
        self.authority()?.following()
    }

    /// Returns all four sections. Fails with the error of the first question or record before the last section that
    /// cannot be skipped.
    pub fn sections(
        &self,
    ) -> Result<
        (
            QuestionSection<'_>,
            RecordSection<'_>,
            RecordSection<'_>,
            RecordSection<'_>,
        ),
        ParseError,
    >
        ensures { MatchResult result
            (λ all. (questions_at all.0 ≡ first_question (octets_in Octs.list self.now))
            × IsSectionOf (octets_in Octs.list self.now) Answer (records_at all.1)
            × IsSectionOf (octets_in Octs.list self.now) Authority (records_at all.2)
            × IsSectionOf (octets_in Octs.list self.now) Additional (records_at all.3))
            (IsOutOfReach (octets_in Octs.list self.now) Additional) }
    {
        let question = self.question();
        let answer = question.next_section()?;
        let authority = answer.following()?;
        let additional = authority.following()?;
        Ok((question, answer, authority, additional))
    }

    /// Returns an iterator over the records of all sections, each with its section. It is empty if a question cannot be
    /// skipped.
    pub fn iter(&self) -> MessageIter<'_>
        ensures { IsAllOf (octets_in Octs.list self.now) (all_at result) }
    {
        MessageIter::from_section(self.answer().ok())
    }
}
