//! Answers rows of the calls of `dns_message` and of its parts: what each call returns for the values in `stdin`.
//!
//! What is parsed is given by a place and the message, and the last word of the answer is the place after it. Other
//! names are texts, and other records are written as in a zone file.
#![tactic(auto)]

mod answers;
mod building;
mod changed_messages;
mod copied_messages;
mod headers;
mod messages;
mod options;
mod parsed;
mod questions;
mod records;
mod sections;

use rows::{Answer, Calls, Row, RowError, answer_rows};
use std::alloc::Global;
use std::process::ExitCode;

/// The calls of `dns_message` and of its parts.
struct MessageCalls;

impl Calls for MessageCalls {
    fn answer(&self, alloc: Global, row: &mut Row<'_>, out: &mut Answer) -> Result<(), RowError> {
        match row.family() {
            "Header" | "Flags" => headers::answer(alloc, row, out),
            "HeaderCounts" | "HeaderSection" => sections::answer(alloc, row, out),
            "Message" if changed_messages::answers(row.method()) => {
                changed_messages::answer(alloc, row, out)
            }
            "Message" => messages::answer(alloc, row, out),
            "Opt" => options::answer_options(alloc, row, out),
            "OptHeader" => options::answer_header(row, out),
            "OptRecord" => options::answer_record(alloc, row, out),
            "Question" => questions::answer(alloc, row, out),
            "QuestionSection" => questions::answer_section(alloc, row, out),
            "Record" => records::answer(alloc, row, out),
            "RecordHeader" => parsed::answer_header(alloc, row, out),
            "ParsedRecord" => parsed::answer(alloc, row, out),
            _ => building::answer(alloc, row, out),
        }
    }
}

fn main(rt: HostRuntime) -> ExitCode {
    answer_rows(&rt, &MessageCalls)
}
