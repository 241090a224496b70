//! Starting an answer to a query.
ghost use Rattle.dns_builder.specs.Answering.{AnswersHeader};

use super::{AnswerBuilder, QuestionBuilder, SectionBuilder};
use crate::item::QuestionItem;
use crate::section::{Questions, Start};
use dns_header::{Header, Question};
use dns_name::{Composer, Octets, ParsedName, Rcode};
use dns_sections::{Message, PushError, QuestionSection};

impl<Target: Composer + Drop> SectionBuilder<Target, Start> {
    ghost use Rattle.std.specs.Prelude.{◌⊎◌, [], ◌∷◌, ℕ, List, IfOk, IfErr, MatchResult};
    ghost use Rattle.dns_header.specs.Question as spec;
    ghost use Rattle.dns_sections.specs.Message as message;
    ghost use Rattle.dns_builder.specs.Answering.{BeginsAnswer, RefusesQuestion, BeginsFailure};
    ghost use Rattle.dns_builder.specs.Built.{Built, IsDraftOf};
    ghost use Rattle.dns_builder.specs.Steps.{KeepsLimits};
    ghost use Rattle.dns_builder.specs.Seen.{draft_of, target_in};

    /// Starts an answer to a query, with a response code (RFC 1035 4.1.1).
    ///
    /// Sets QR, and copies the ID, the opcode and RD of the query. Pushes the questions of the query, up to the first
    /// that does not parse, and goes to the answer section. Fails with the error of the first push that fails; the
    /// builder is then dropped.
    pub fn start_answer<Octs: Octets>(
        self,
        query: &Message<Octs>,
        rcode: Rcode,
    ) -> Result<AnswerBuilder<Target>, PushError>
        ensures ok { (built : Built) → IsDraftOf Target.spelling built (draft_of self)
            → IfOk result (λ builder. BeginsAnswer Target.spelling (message.octets_in Octs.list query.now) rcode built (draft_of builder)) }
        ensures why { (built : Built) → IsDraftOf Target.spelling built (draft_of self)
            → IfErr result (λ error. (questions : List spec.Question)
            × RefusesQuestion Target.spelling (message.octets_in Octs.list query.now) rcode built (draft_of self) questions error) }
        ensures limits { IfOk result (λ builder. KeepsLimits (draft_of self) (draft_of builder)) }
        ensures stays { IfOk result (λ builder. Target.stays (target_in self) (target_in builder)) }
    {
        let mut builder = self.begin_questions(query.header(), rcode);
        builder.push_questions(query.question())?;
        Ok(builder.answer())
    }

    /// Starts an answer to a query, as `start_answer` does.
    ///
    /// If a push fails, returns as the error a builder with the questions before it, whose response code is SERVFAIL.
    pub fn try_start_answer<Octs: Octets>(
        self,
        query: &Message<Octs>,
        rcode: Rcode,
    ) -> Result<AnswerBuilder<Target>, AnswerBuilder<Target>>
        ensures ok { (built : Built) → IsDraftOf Target.spelling built (draft_of self)
            → IfOk result (λ builder. BeginsAnswer Target.spelling (message.octets_in Octs.list query.now) rcode built (draft_of builder)) }
        ensures err { (built : Built) → IsDraftOf Target.spelling built (draft_of self)
            → IfErr result (λ builder. BeginsFailure Target.spelling (message.octets_in Octs.list query.now) rcode built (draft_of self)
            (draft_of builder)) }
        ensures limits { MatchResult result (λ builder. KeepsLimits (draft_of self) (draft_of builder))
            (λ builder. KeepsLimits (draft_of self) (draft_of builder)) }
        ensures stays { MatchResult result (λ builder. Target.stays (target_in self) (target_in builder))
            (λ builder. Target.stays (target_in self) (target_in builder)) }
    {
        let mut builder = self.begin_questions(query.header(), rcode);
        match builder.push_questions(query.question()) {
            Ok(()) => Ok(builder.answer()),
            Err(_) => {
                let mut header = builder.header();
                header.set_rcode(Rcode::SERVFAIL);
                builder.set_header(header);
                Err(builder.answer())
            }
        }
    }

    /// Starts an answer to a query, as `start_answer` does.
    ///
    /// If a push fails, returns a builder with the questions before it, whose response code is SERVFAIL.
    pub fn start_error<Octs: Octets>(
        self,
        query: &Message<Octs>,
        rcode: Rcode,
    ) -> AnswerBuilder<Target>
        ensures built { (built : Built) → IsDraftOf Target.spelling built (draft_of self)
            → BeginsAnswer Target.spelling (message.octets_in Octs.list query.now) rcode built (draft_of result)
            ⊎ BeginsFailure Target.spelling (message.octets_in Octs.list query.now) rcode built (draft_of self) (draft_of result) }
        ensures limits { KeepsLimits (draft_of self) (draft_of result) }
        ensures stays { Target.stays (target_in self) (target_in result) }
    {
        match self.try_start_answer(query, rcode) {
            Ok(builder) => builder,
            Err(builder) => builder,
        }
    }

    /// Sets the header of an answer to a query, and goes to the questions.
    fn begin_questions(self, query: Header, rcode: Rcode) -> QuestionBuilder<Target>
        ensures built { (built : Built) → IsDraftOf Target.spelling built (draft_of self)
            → (header : List ℕ) × AnswersHeader query rcode built.header header
            × IsDraftOf Target.spelling (record { header = header; sections = [] ∷ [] }) (draft_of result) }
        ensures limits { KeepsLimits (draft_of self) (draft_of result) }
        ensures stays { Target.stays (target_in self) (target_in result) }
    {
        let mut builder = self.question();
        builder.set_header(answer_header(builder.header(), query, rcode));
        builder
    }
}

impl<Target: Composer> SectionBuilder<Target, Questions> {
    ghost use Rattle.std.specs.Prelude.{◌≡◌, List, OnOk, OnErr, IfErr};
    ghost use Rattle.dns_name.specs.ParsedName.{labels_of};
    ghost use Rattle.dns_header.specs.Question as spec;
    ghost use Rattle.dns_header.specs.Question.{question_parts};
    ghost use Rattle.dns_header.specs.QuestionParts.{question_of};
    ghost use Rattle.dns_sections.specs.Seen.{questions_at};
    ghost use Rattle.dns_builder.specs.Asked.{AreReadable, AddsQuestions, RefusesNext};
    ghost use Rattle.dns_builder.specs.Built.{Built, IsDraftOf};
    ghost use Rattle.dns_builder.specs.Steps.{with_item, IsTakenBy, IsRefusedBy, KeepsLimits};
    ghost use Rattle.dns_builder.specs.Seen.{draft_of, target_in};

    /// Pushes the remaining questions of a query, up to the first that does not parse. Fails with the error of the
    /// first push that fails. The questions before it stay.
    fn push_questions(&mut self, questions: QuestionSection<'_>) -> Result<(), PushError>
        ensures ok { OnOk result ((pushed : List spec.Question) × AreReadable (questions_at questions.entry) pushed
            × AddsQuestions Target.spelling (draft_of self.old) pushed (draft_of self.new)) }
        ensures why { IfErr result (λ error. (pushed : List spec.Question)
            × RefusesNext Target.spelling (questions_at questions.entry) pushed (draft_of self.new) error
            × AddsQuestions Target.spelling (draft_of self.old) pushed (draft_of self.new)) }
        ensures limits { KeepsLimits (draft_of self.old) (draft_of self.new) }
        ensures stays { Target.stays (target_in self.old) (target_in self.new) }
    {
        for question in questions {
            let Ok(question) = question else {
                return Ok(());
            };
            self.push_parsed(&question)?;
        }
        Ok(())
    }

    /// Pushes a parsed question, as `push` does.
    fn push_parsed(&mut self, question: &Question<ParsedName<&[u8]>>) -> Result<(), PushError>
        ensures ok { (built : Built) → IsDraftOf Target.spelling built (draft_of self.old)
            → OnOk result (IsDraftOf Target.spelling (with_item built (question_parts (question_of labels_of question.now))) (draft_of self.new)) }
        ensures taken { OnOk result (IsTakenBy Target.spelling 0 (draft_of self.old)
            (question_parts (question_of labels_of question.now)) ⊥) }
        ensures err { OnErr result ((draft_of self.new) ≡ (draft_of self.old)) }
        ensures why { IfErr result (IsRefusedBy Target.spelling 0 (draft_of self.old)
            (question_parts (question_of labels_of question.now)) ⊥) }
        ensures limits { KeepsLimits (draft_of self.old) (draft_of self.new) }
        ensures stays { Target.stays (target_in self.old) (target_in self.new) }
    {
        self.draft.push_item(0, &QuestionItem { inner: question })
    }
}

/// Returns the header of an answer to a query. Fields that are not set here are those of `header`.
fn answer_header(mut header: Header, query: Header, rcode: Rcode) -> Header
    ensures { AnswersHeader query rcode header result }
{
    header.set_id(query.id());
    header.set_qr(true);
    header.set_opcode(query.opcode());
    header.set_rd(query.rd());
    header.set_rcode(rcode);
    header
}
