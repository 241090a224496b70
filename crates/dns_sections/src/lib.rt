//! Messages and their sections: cursors over questions and records (RFC 1035 4.1).
//!
//! A message is twelve octets of header, then questions, then records in three sections. A section is parsed one item
//! at a time. A cursor is a place in it; copy a cursor to read on from that place again.
//!
//! A part of `dns_message`, which re-exports all of it.
#![tactic(auto)]

mod aliases;
mod cursor;
mod error;
mod item;
pub mod laws;
mod message;
mod message_iter;
mod question_section;
mod record_iter;
mod record_section;
mod record_target;
mod section;

pub use error::{CopyRecordsError, PushError, ShortMessage};
pub use message::Message;
pub use message_iter::MessageIter;
pub use question_section::QuestionSection;
pub use record_iter::{AnyRecordIter, RecordIter};
pub use record_section::RecordSection;
pub use record_target::RecordTarget;
pub use section::Section;
