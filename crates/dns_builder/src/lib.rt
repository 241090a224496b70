//! Builders of messages: sections are started one after another, and items are pushed into the last one (RFC 1035 4.1).
//!
//! A part of `dns_message`, which re-exports all of it.
#![tactic(auto)]

mod builder;
mod draft;
mod item;
pub mod laws;
mod opt;
mod section;

pub use builder::{
    AdditionalBuilder, AnswerBuilder, AuthorityBuilder, MessageBuilder, QuestionBuilder,
    RecordSectionBuilder, SectionBuilder,
};
/// The targets that compress names, for `dns_message`.
pub use dns_compress as compression;
/// What messages are read by, for `dns_message`.
pub use dns_sections as reading;
pub use opt::OptBuilder;
pub use section::{
    Additionals, Answers, Authorities, BegunSection, BuilderSection, OtherThan, Questions,
    RecordsSection, Start,
};
