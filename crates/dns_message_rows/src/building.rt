//! Calls of `dns_builder` and `dns_compress`: which messages they build, and which pushes fail.
//!
//! A row lists steps. The error of a step is written in its order, and the octets are written last.
mod answers;
mod builders;
mod copied;
mod opts;
mod owners;
mod questions;
mod random;
mod records;
mod refused;
mod stage;
mod stream;
mod targets;

use rows::{Answer, Row, RowError};
use std::alloc::Global;

/// Answers a call of a builder or of a compressor.
pub fn answer(alloc: Global, row: &mut Row<'_>, out: &mut Answer) -> Result<(), RowError> {
    match row.call() {
        "Compressor::append" => targets::append_to_compressor(alloc, row, out),
        "Compressor::append_owners" => owners::append_owners(alloc, row, out),
        "Compressor::random_over_array" => random::over_array(alloc, row, out),
        "Compressor::random_over_vec" => random::over_vec(alloc, row, out),
        "StreamTarget::append" => targets::append_to_stream(alloc, row, out),
        "MessageBuilder::build" => builders::build(alloc, row, out),
        "MessageBuilder::new_stream_vec" => stream::new_stream_vec(alloc, row, out),
        "MessageBuilder::two_answers" => stream::two_answers(alloc, row, out),
        "MessageBuilder::start_answer" => answers::start_answer(alloc, row, out),
        "MessageBuilder::start_error" => answers::start_error(alloc, row, out),
        "MessageBuilder::refused_in_turn" => refused::refused_in_turn(alloc, row, out),
        "AdditionalBuilder::opt_refused_in_turn" => {
            refused::opt_refused_in_turn(alloc, row, out)
        }
        "AdditionalBuilder::opt_behind" => opts::opt_behind(alloc, row, out),
        "AnswerBuilder::copy_cnames" => copied::copy_cnames(alloc, row, out),
        "QuestionBuilder::over_array" => questions::over_array(row, out),
        "QuestionBuilder::over_vec" => questions::over_vec(alloc, row, out),
        _ => Err(RowError::UnknownCall),
    }
}
