//! A zone's text in canonical order.
ghost use Rattle.std.specs.Prelude.{IfOk, OnOk, filter, string_bytes};
ghost use Rattle.std.specs.List.{AllByRecursion};
ghost use Rattle.dns_text.specs.Layout.{layout_of};
ghost use Rattle.zone_records.specs.Typed.{HasLawfulData};
ghost use Rattle.zone_tool.specs.Sorted.{AddsRecords, IsSortedText, is_one};

use dns_text::DisplayKind;
use std::alloc::{AllocError, Global};
use zone::zone::records_of;
use zone::{Zone, print_record};
use zone_canonical::canonical_forms;
use zone_records::record_list::RecordList;

/// Returns the text of the zone's records in canonical form, each once (RFC 4034 6): the SOA, and then the others in
/// canonical order. So it is a zone's text again. The memory of the zone is free before the text is written.
///
/// Fails if out of memory.
#[tactic(auto, using(zone::proofs::ZoneForms::zone_forms, crate::proofs::SortedTexts::lawful_data))]
pub fn sorted(alloc: Global, zone: Zone, kind: DisplayKind) -> Result<Vec<u8>, AllocError>
    ensures { IfOk result (λ text. IsSortedText (layout_of kind) zone.records text.items) }
{
    let forms = canonical_forms(alloc, records_of(&zone))?;
    drop(zone);
    let mut text = String::new(alloc);
    print_those(&mut text, &forms, kind, true)?;
    print_those(&mut text, &forms, kind, false)?;
    Ok(text.into_bytes())
}

/// Appends the text of the records that are SOAs, or of those that are not, in order. Fails if out of memory.
fn print_those(
    text: &mut String,
    records: &RecordList,
    kind: DisplayKind,
    are_soas: bool,
) -> Result<(), AllocError>
    requires { AllByRecursion HasLawfulData records.now }
    ensures { OnOk result (AddsRecords (layout_of kind) (filter (is_one are_soas) records.now)
        (string_bytes text.old) (string_bytes text.new)) }
{
    for index in 0..records.len() {
        let record = records.record_at(index);
        if record.is_soa() == are_soas {
            print_record(text, &record, kind)?;
        }
    }
    Ok(())
}
