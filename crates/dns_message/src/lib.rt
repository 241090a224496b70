//! Messages: parsing and building headers, questions, records and sections (RFC 1035 4.1).
//!
//! It re-exports its parts: `dns_header` has headers, questions and records, `dns_sections` messages and the cursors
//! over their sections, `dns_builder` the builders of messages, and `dns_compress` targets that compress, or send a
//! message after its length.
//!
//! ```
//! let target = TreeCompressor::new(alloc, Vec::new(alloc));
//! let mut question = MessageBuilder::from_target(target)?.question();
//! question.push((apex.for_ref(), Rtype::MX))?;
//! let mut answer = question.answer();
//! answer.push((apex.for_ref(), Ttl::HOUR, Mx::new(10, mail.for_ref())))?;
//! let octets = answer.finish().into_target();
//! ```
//!
//! The program of a page `example_message` builds such a message, and reads it with cursors.
#![tactic(auto)]

pub mod laws;

pub use dns_builder::compression::{
    Compressor, HashCompressor, HashTable, StaticCompressor, StaticTable, StreamTarget, Table,
    TreeCompressor, TreeTable,
};
pub use dns_builder::reading::{
    AnyRecordIter, CopyRecordsError, Message, MessageIter, PushError, QuestionSection, RecordIter,
    RecordSection, RecordTarget, Section, ShortMessage,
};
pub use dns_builder::{
    AdditionalBuilder, Additionals, AnswerBuilder, Answers, Authorities, AuthorityBuilder,
    BegunSection, BuilderSection, MessageBuilder, OptBuilder, OtherThan, QuestionBuilder,
    Questions, RecordSectionBuilder, RecordsSection, SectionBuilder, Start,
};
pub use dns_header::{
    ComposeQuestion, ComposeRecord, CountOverflow, Flags, FlagsFromStrError, FromStrError, Header,
    HeaderCounts, HeaderSection, Opt, OptHeader, OptIter, OptRecord, ParsedRecord,
    PresentationError, Question, Record, RecordHeader, RecordParseError,
};
