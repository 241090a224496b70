//! Answers rows of the calls of `dns_text` and of `dns_name`: what each call returns for the values in `stdin`.
#![tactic(auto)]

mod char_strs;
mod documents;
mod encodings;
mod name_calls;
mod scans;
mod uncertain;

use rows::{Answer, Calls, Row, RowError, answer_rows};
use std::alloc::Global;
use std::process::ExitCode;

/// The calls of `dns_text` and of `dns_name`.
struct TextCalls;

impl Calls for TextCalls {
    fn answer(&self, alloc: Global, row: &mut Row<'_>, out: &mut Answer) -> Result<(), RowError> {
        match row.family() {
            "base16" | "base32" | "base64" => encodings::answer(alloc, row, out),
            "CharStr" => char_strs::answer(alloc, row, out),
            "CharStrBuilder" => char_strs::answer_builder(alloc, row, out),
            "UncertainName" => uncertain::answer(alloc, row, out),
            "UncertainChain" => uncertain::answer_chain(alloc, row, out),
            "display_zonefile" => documents::answer(alloc, row, out),
            _ => match row.method() {
                "" | "scan" => scans::answer(alloc, row, out),
                _ => name_calls::answer(alloc, row, out),
            },
        }
    }
}

fn main(rt: HostRuntime) -> ExitCode {
    answer_rows(&rt, &TextCalls)
}
