//! A builder in whichever section the last step left it.
use crate::building::opts::OptRow;
use dns_builder::{
    AdditionalBuilder, AnswerBuilder, AuthorityBuilder, BuilderSection, MessageBuilder,
    QuestionBuilder, SectionBuilder,
};
use dns_header::{ComposeQuestion, ComposeRecord, Header};
use dns_name::Composer;
use dns_sections::PushError;
use rows::RowError;

/// A builder of a message, by its section.
#[derive(Drop)]
pub enum Stage<Target: Composer> {
    Start(MessageBuilder<Target>),
    Question(QuestionBuilder<Target>),
    Answer(AnswerBuilder<Target>),
    Authority(AuthorityBuilder<Target>),
    Additional(AdditionalBuilder<Target>),
}

impl<Target: Composer + Drop> Stage<Target> {
    /// Goes on to the section of this name.
    pub fn go_to(self, section: &str) -> Result<Self, RowError> {
        match self {
            Stage::Start(builder) => moved(builder, section),
            Stage::Question(builder) => moved(builder, section),
            Stage::Answer(builder) => moved(builder, section),
            Stage::Authority(builder) => moved(builder, section),
            Stage::Additional(builder) => moved(builder, section),
        }
    }

    /// Replaces the header with the first four of these octets, before a section is begun.
    pub fn set_header(&mut self, octets: &[u8]) -> Result<(), RowError> {
        match self {
            Stage::Start(builder) if octets.len() >= 4 => {
                builder.set_header(Header::for_message_slice(octets));
                Ok(())
            }
            _ => Err(RowError::BadWord),
        }
    }

    /// Sets the push limit, before a section is begun.
    pub fn set_push_limit(&mut self, limit: usize) -> Result<(), RowError> {
        match self {
            Stage::Start(builder) => {
                builder.set_push_limit(limit);
                Ok(())
            }
            _ => Err(RowError::BadWord),
        }
    }

    /// Empties the section, which must be begun.
    pub fn rewind(&mut self) -> Result<(), RowError> {
        match self {
            Stage::Start(_) => return Err(RowError::BadWord),
            Stage::Question(builder) => builder.rewind(),
            Stage::Answer(builder) => builder.rewind(),
            Stage::Authority(builder) => builder.rewind(),
            Stage::Additional(builder) => builder.rewind(),
        }
        Ok(())
    }

    /// Pushes a question.
    pub fn push_question<Q: ComposeQuestion + Drop>(
        &mut self,
        question: Q,
    ) -> Result<Result<(), PushError>, RowError> {
        match self {
            Stage::Question(builder) => Ok(builder.push(question)),
            _ => Err(RowError::BadWord),
        }
    }

    /// Pushes a record.
    pub fn push_record<R: ComposeRecord + Drop>(
        &mut self,
        record: R,
    ) -> Result<Result<(), PushError>, RowError> {
        match self {
            Stage::Answer(builder) => Ok(builder.push(record)),
            Stage::Authority(builder) => Ok(builder.push(record)),
            Stage::Additional(builder) => Ok(builder.push(record)),
            _ => Err(RowError::BadWord),
        }
    }

    /// Pushes an OPT record.
    pub fn push_opt(&mut self, row: &OptRow) -> Result<Result<(), PushError>, RowError> {
        match self {
            Stage::Additional(builder) => Ok(builder.opt(|opt| row.apply(opt))),
            _ => Err(RowError::BadWord),
        }
    }

    /// Returns the target.
    pub fn finish(self) -> Target {
        match self {
            Stage::Start(builder) => builder.finish(),
            Stage::Question(builder) => builder.finish(),
            Stage::Answer(builder) => builder.finish(),
            Stage::Authority(builder) => builder.finish(),
            Stage::Additional(builder) => builder.finish(),
        }
    }
}

/// Returns the builder in the section of this name.
fn moved<Target: Composer + Drop, S: BuilderSection>(
    builder: SectionBuilder<Target, S>,
    section: &str,
) -> Result<Stage<Target>, RowError> {
    match section {
        "builder" => Ok(Stage::Start(builder.builder())),
        "question" => Ok(Stage::Question(builder.question())),
        "answer" => Ok(Stage::Answer(builder.answer())),
        "authority" => Ok(Stage::Authority(builder.authority())),
        "additional" => Ok(Stage::Additional(builder.additional())),
        _ => Err(RowError::BadWord),
    }
}
