//! Answers rows of the calls of `dns_rdata` and of `dns_rdata_more`: what each call returns for the values in `stdin`.
//!
//! Data is given by its type and its octets, a type by its mnemonic. A type after `\#` makes it unknown data. If `@`
//! and a number follow a type, the octets are a message, and the data begins at that place in it.
#![tactic(auto)]

mod field_rows;
mod fields;
mod further_data;
mod given;
mod made;
mod names;
mod pairs;
mod strings;
mod zone_data;

use rows::{Answer, Calls, Row, RowError, answer_rows};
use std::alloc::Global;
use std::process::ExitCode;

/// The calls of `dns_rdata` and of `dns_rdata_more`.
struct RdataCalls;

impl Calls for RdataCalls {
    fn answer(&self, alloc: Global, row: &mut Row<'_>, out: &mut Answer) -> Result<(), RowError> {
        match row.family() {
            "ZoneRecordData" => answer_any(alloc, row, out),
            "Txt" => strings::answer(alloc, row, out),
            "TxtBuilder" => strings::answer_builder(alloc, row, out),
            "rows" => answer_row(alloc, row, out),
            "eq" | "cmp" | "partial_cmp" | "canonical_cmp" | "canonical_lt" => {
                pairs::answer(alloc, row, out)
            }
            "display_zonefile" => given::answer_layout(alloc, row, out),
            _ if row.method() == "" => given::answer(alloc, row, out),
            _ => answer_type(alloc, row, out),
        }
    }
}

/// Answers a call that makes data of any type.
fn answer_any(alloc: Global, row: &mut Row<'_>, out: &mut Answer) -> Result<(), RowError> {
    match row.method() {
        "scan" => zone_data::answer_scan(alloc, row, out),
        "parse_any_rdata" => zone_data::answer_parse(alloc, row, out),
        "parse_rdata" => zone_data::answer_taken(alloc, row, out),
        "flatten_into" | "try_octets_from" => zone_data::answer_owned(alloc, row, out),
        _ => Err(RowError::UnknownCall),
    }
}

/// Answers a call that makes data of one type.
fn answer_type(alloc: Global, row: &mut Row<'_>, out: &mut Answer) -> Result<(), RowError> {
    match row.family() {
        "A" | "Aaaa" => made::answer_address(row, out),
        "Hinfo" => made::answer_hinfo(alloc, row, out),
        "Caa" => made::answer_caa(alloc, row, out),
        "Dnskey" => made::answer_dnskey(alloc, row, out),
        "Ds" => made::answer_ds(alloc, row, out),
        "Sshfp" => made::answer_sshfp(alloc, row, out),
        "Mx" => names::answer_mx(alloc, row, out),
        "Srv" => names::answer_srv(alloc, row, out),
        "Strings" => field_rows::answer_strings(alloc, row, out),
        "Minfo" | "Rp" | "Soa" => names::answer_two(alloc, row, out),
        "Cname" | "Dname" | "Mb" | "Md" | "Mf" | "Mg" | "Mr" | "Ns" | "Ptr" => {
            answer_name(alloc, row, out)
        }
        _ => further_data::answer(alloc, row, out),
    }
}

/// Answers a call that makes data of one name.
fn answer_name(alloc: Global, row: &mut Row<'_>, out: &mut Answer) -> Result<(), RowError> {
    match row.method() {
        "new" => names::answer_one(alloc, row, out),
        "parse_rdata" => names::answer_taken(alloc, row, out),
        _ => Err(RowError::UnknownCall),
    }
}

/// Answers a call of a row of fields.
fn answer_row(alloc: Global, row: &mut Row<'_>, out: &mut Answer) -> Result<(), RowError> {
    match row.method() {
        "parse_row" => field_rows::answer_parsed(alloc, row, out),
        "scan_row" => field_rows::answer_scanned(alloc, row, out),
        "row_len" => field_rows::answer_len(alloc, row, out),
        "canonical_row_cmp_octets" => field_rows::answer_beside(alloc, row, out),
        "show_row" => field_rows::answer_shown(alloc, row, out),
        "compose_row" | "compose_canonical_row" => field_rows::answer_composed(alloc, row, out),
        _ => Err(RowError::UnknownCall),
    }
}

fn main(rt: HostRuntime) -> ExitCode {
    answer_rows(&rt, &RdataCalls)
}
