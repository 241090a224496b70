//! Calls of `dns_name` and of the crates below it, `dns_octets`, `dns_values` and `dns_label`.
//!
//! Their rows are examples from RFCs and from the crate `domain`, and each limit from both sides.
mod any_name;
mod builders;
mod chains;
mod labels;
mod names;
mod octets;
mod owned_labels;
mod parsed_names;
mod parsers;
mod parts;
mod read;
mod record_data;
mod relative_names;
mod symbols;
mod text;
mod times;
mod values;

use rows::{Answer, Row, RowError};
use std::alloc::Global;

/// Answers a call of a name, or of a value or octets below it.
pub fn answer(alloc: Global, row: &mut Row<'_>, out: &mut Answer) -> Result<(), RowError> {
    match row.family() {
        "Parse" => octets::answer_parse(alloc, row, out),
        "Compose" => octets::answer_compose(alloc, row, out),
        "Parser" => parsers::answer(alloc, row, out),
        "Label" => labels::answer(alloc, row, out),
        "OwnedLabel" => owned_labels::answer(alloc, row, out),
        "Symbol" => symbols::answer(alloc, row, out),
        "Symbols" => symbols::answer_all(alloc, row, out),
        "Class" | "Rtype" => values::answer_words(alloc, row, out),
        "OptionCode" | "Opcode" | "Rcode" | "OptRcode" => values::answer_codes(alloc, row, out),
        "Serial" => values::answer_serial(alloc, row, out),
        "Ttl" => times::answer(alloc, row, out),
        "Name" => names::answer(alloc, row, out),
        "RelativeName" => relative_names::answer(alloc, row, out),
        "SpelledName" => text::answer_spelled(alloc, row, out),
        "ParsedName" => parsed_names::answer(alloc, row, out),
        "Chain" => chains::answer(alloc, row, out),
        "NameBuilder" => builders::answer(alloc, row, out),
        "UnknownRecordData" => record_data::answer(alloc, row, out),
        "LongRecordData" => record_data::answer_lengths(row, out),
        _ => Err(RowError::UnknownCall),
    }
}
