//! The question section.
ghost use Rattle.std.specs.Prelude.{◌≡◌, ◌≤◌, ℕ, true, false, Some, Ok, Err, IfSome, IfNone, MatchResult, length};
ghost use Rattle.dns_octets.specs.Parser.{octets_of};

mod order;

use crate::cursor::ItemCursor;
use crate::{RecordSection, Section};
use dns_header::{HeaderCounts, Question};
use dns_name::{ParseError, ParsedName, Parser, ShortInput};

/// A cursor over the questions of a message (RFC 1035 4.1.2).
///
/// A question that does not parse is returned as an error once, and nothing after it.
#[derive(Clone, Copy, Debug)]
pub struct QuestionSection<'a> {
    cursor: ItemCursor<'a>,
    ghost header: { 12 ≤ length (octets_of cursor.parser) },
}

impl<'a> QuestionSection<'a> {
    ghost use Rattle.dns_header.specs.Question.{SkipsQuestion};
    ghost use Rattle.dns_name.specs.ParsedName.{labels_of};
    ghost use Rattle.dns_header.specs.Question as spec;
    ghost use Rattle.dns_header.specs.QuestionParts.{question_of};
    ghost use Rattle.dns_sections.specs.Answers.{AskTheSame};
    ghost use Rattle.dns_sections.specs.Cursor.{Cursor, PassesAll};
    ghost use Rattle.dns_sections.specs.Given.{GivesQuestion};
    ghost use Rattle.dns_sections.specs.Questions.{first_question, QuestionSkipIsCut};
    ghost use Rattle.dns_sections.specs.Sections.{at_start};
    ghost use Rattle.dns_sections.specs.Seen.{questions_at, records_at};
    ghost use Rattle.dns_sections.specs.declared.section.Section.TheVariants.{Answer};

    /// Returns a cursor over the questions of the message with these octets. There must be at least twelve.
    pub(crate) fn of_message(octets: &'a [u8]) -> Self
        requires { 12 ≤ length octets.now }
        ensures { questions_at result ≡ first_question octets.now }
    {
        let mut parser = Parser::from_ref(octets);
        let _: Result<(), ShortInput> = parser.advance(12);
        let count = HeaderCounts::for_message_slice(octets).qdcount();
        QuestionSection {
            cursor: ItemCursor::new(parser, count),
        }
    }

    /// Returns how many octets of the message come before the next question.
    pub fn pos(&self) -> usize
        ensures { result ≡ (questions_at self.now).place }
    {
        self.cursor.pos()
    }

    /// Returns the answer section, which follows the remaining questions. Follows none of their pointers. Fails with
    /// the error of the first question that cannot be skipped, or of the one that did not parse before.
    pub fn answer(self) -> Result<RecordSection<'a>, ParseError>
        ensures { MatchResult result
            (λ section. (next : ℕ) × PassesAll SkipsQuestion QuestionSkipIsCut (questions_at self.entry) (Ok next)
            × (records_at section ≡ at_start (questions_at self.entry).message Answer next))
            (λ error. PassesAll SkipsQuestion QuestionSkipIsCut (questions_at self.entry) (Err error)) }
    {
        let parser = self.cursor.pass_all::<Question<ParsedName<&'a [u8]>>>()?;
        Ok(RecordSection::at_start(parser, Section::first()))
    }

    /// The same as `answer`.
    pub fn next_section(self) -> Result<RecordSection<'a>, ParseError>
        ensures { MatchResult result
            (λ section. (next : ℕ) × PassesAll SkipsQuestion QuestionSkipIsCut (questions_at self.entry) (Ok next)
            × (records_at section ≡ at_start (questions_at self.entry).message Answer next))
            (λ error. PassesAll SkipsQuestion QuestionSkipIsCut (questions_at self.entry) (Err error)) }
    {
        self.answer()
    }

    /// Returns the next question, or None if none is left or it does not parse.
    fn next_read(&mut self) -> Option<Question<ParsedName<&'a [u8]>>>
        ensures some { IfSome result (λ question. GivesQuestion (questions_at self.old) (Some (Ok (question_of labels_of question)))
            (questions_at self.new)) }
        ensures none { IfNone result ((question : spec.Question) (new : Cursor)
            → GivesQuestion (questions_at self.old) (Some (Ok question)) new → ⊥) }
    {
        match self.next() {
            Some(Ok(question)) => Some(question),
            Some(Err(_)) => None,
            None => None,
        }
    }

    /// Returns whether both have the same remaining questions, in order, names up to ASCII case (RFC 4343). A question
    /// that does not parse equals none.
    pub(crate) fn asks_the_same(mut self, mut other: QuestionSection<'a>) -> bool
        ensures yes { result ≡ true → AskTheSame (questions_at self.entry) (questions_at other.entry) }
        ensures no { result ≡ false → AskTheSame (questions_at self.entry) (questions_at other.entry) → ⊥ }
    {
        let Ok(left) = self.cursor.left() else {
            return false;
        };
        let Ok(others) = other.cursor.left() else {
            return false;
        };
        if left != others {
            return false;
        }
        for _ in 0..left {
            let Some(question) = self.next_read() else {
                return false;
            };
            let Some(asked) = other.next_read() else {
                return false;
            };
            if question != asked {
                return false;
            }
        }
        true
    }
}

impl<'a> Iterator for QuestionSection<'a> {
    ghost use Rattle.dns_name.specs.ParsedName.{labels_of};
    ghost use Rattle.dns_header.specs.QuestionParts.{question_of};
    ghost use Rattle.dns_sections.specs.Cursor.{items_left};
    ghost use Rattle.dns_sections.specs.Given.{GivesQuestion, seen};
    ghost use Rattle.dns_sections.specs.Seen.{questions_at};

    type Item = Result<Question<ParsedName<&'a [u8]>>, ParseError>;

    ghost next_gives = { λ old result new. GivesQuestion (questions_at old) (seen (question_of labels_of) result) (questions_at new) };

    ghost remaining = { λ section. items_left (questions_at section) };

    fn next(&mut self) -> Option<Self::Item> {
        self.cursor.next_item()
    }
}
