//! Records as text.
ghost use Rattle.std.specs.Prelude.{IfOk, OnOk, string_bytes};
ghost use Rattle.std.specs.List.{AllByRecursion};
ghost use Rattle.dns_text.specs.Layout.{layout_of};
ghost use Rattle.zone_records.specs.Typed.{HasLawfulData};
ghost use Rattle.zone.specs.Printing.{AddsRecord};
ghost use Rattle.zone.specs.Printed.{IsPrinted};

use crate::line::append_line;
use dns_text::{DisplayKind, ZonefileFmt};
use std::alloc::{AllocError, Global};
use zone_records::record::Record;
use zone_records::record_list::RecordList;
use zone_records::typed::typed_record;

/// Returns the text of the records in the layout, one after another, each followed by a line feed.
///
/// Fails if out of memory.
pub fn print_records(
    alloc: Global,
    records: &RecordList,
    kind: DisplayKind,
) -> Result<Vec<u8>, AllocError>
    requires { AllByRecursion HasLawfulData records.now }
    ensures { IfOk result (λ text. IsPrinted (layout_of kind) records.now text.items) }
{
    let mut text = String::new(alloc);
    for index in 0..records.len() {
        let record = records.record_at(index);
        print_record(&mut text, &record, kind)?;
    }
    Ok(text.into_bytes())
}

/// Appends the text of a record in the layout, followed by a line feed. Fails if out of memory.
pub fn print_record(
    text: &mut String,
    record: &Record<'_>,
    kind: DisplayKind,
) -> Result<(), AllocError>
    requires { HasLawfulData «record».now }
    ensures { OnOk result (AddsRecord (layout_of kind) «record».now (string_bytes text.old) (string_bytes text.new)) }
{
    let typed = typed_record(record);
    // An error of the formatter would be an `AllocError` too. No contract excludes one, but the writer of documents
    // fails only if it opens more blocks than a `usize` counts, and a record has one block.
    append_line(text, &typed.display_zonefile(kind))
}
