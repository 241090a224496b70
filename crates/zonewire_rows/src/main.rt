//! Answers rows of the calls of `zonewire` and of `dns_zonefile`: what each call returns for the values in `stdin`.
//!
//! A zone's text is one argument. A printed text is one word: `%20` is a space, `%0a` a line feed. A class that is not
//! given is IN, and a limit 512 octets. An origin and a layout may be left out: then there is no origin, and the layout
//! is `Simple`. A row of `run`, `program` or `steps` has the input, and then the words of a command line of the program,
//! as a row of `job` has. A spelling may be left out: then names are written in full. `sent_again` and `rival` compare what
//! several calls return.
#![tactic(auto)]

mod free;
mod programs;
mod queries;
mod receivers;
mod rivals;
mod steps;
mod streams;
mod zonefile;
mod zones;

use rows::{Answer, Calls, Row, RowError, answer_rows};
use std::alloc::Global;
use std::process::ExitCode;

/// The calls of `zonewire` and of `dns_zonefile`.
struct ZonewireCalls;

impl Calls for ZonewireCalls {
    fn answer(&self, alloc: Global, row: &mut Row<'_>, out: &mut Answer) -> Result<(), RowError> {
        match row.call() {
            "check_query" => queries::answer(alloc, row, out),
            "axfr_query" => queries::answer_axfr(alloc, row, out),
            "Zone::read" => zones::answer_read(alloc, row, out),
            "ZoneRecord::parse_data" => zones::answer_parse_data(alloc, row, out),
            "Zone::print" => zones::answer_print(alloc, row, out),
            "Zone::canonical" => zones::answer_canonical(alloc, row, out),
            "Zone::asked" => zones::answer_asked(alloc, row, out),
            "send" => streams::answer_send(alloc, row, out),
            "sent_again" => streams::answer_sent_again(alloc, row, out),
            "rival" => rivals::answer(alloc, row, out),
            "Receiver::canonical" => streams::answer_received_canonical(alloc, row, out),
            "Receiver" => receivers::answer(alloc, row, out),
            "Receiver::long" => receivers::answer_long(alloc, row, out),
            "Receiver::fed" => receivers::answer_fed(alloc, row, out),
            "run" => programs::answer(alloc, row, out),
            "job" => programs::answer_job(alloc, row, out),
            "program" => programs::answer_program(alloc, row, out),
            "steps" => steps::answer(alloc, row, out),
            _ => zonefile::answer(alloc, row, out),
        }
    }
}

fn main(rt: HostRuntime) -> ExitCode {
    answer_rows(&rt, &ZonewireCalls)
}
