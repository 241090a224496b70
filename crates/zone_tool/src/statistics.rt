//! Numbers of a zone: its records by type, its names and delegations, and the octets of its transfer.
ghost use Rattle.std.specs.Prelude.{◌≡◌, ◌↔◌, [], length, IsTrue, IfOk, IfErr};
ghost use Rattle.std.specs.List.{AllByRecursion};
ghost use Rattle.std.specs.List.Sorted.{IsStrictlySortedBy};
ghost use Rattle.zone.specs.View.{apex_of};
ghost use Rattle.zone_canonical.specs.Canonical.{HasCanonicalForm, canonical_cmp};
ghost use Rattle.zone_send.specs.SentBy.{IsSendFault};
ghost use Rattle.zone_tool.specs.Counting.{AreCounters, AreCountsBelow, IsLast};
ghost use Rattle.zone_tool.specs.Statistics.{AreStatistics, AreTypeCounts, IsCounted, IsOwnerCount, IsStreamLen, transfer_query};

use dns_name::{Name, Rtype, ToName};
use std::alloc::{AllocError, Global};
use zone::Zone;
use zone::zone::records_of;
use zone_canonical::canonical_forms;
use zone_core::axfr_query;
use zone_records::record::Record;
use zone_records::record_list::RecordList;
use zone_send::{SendError, Spelling, send};

/// The number of types that a record may have (RFC 1035 3.2.1).
const TYPES: usize = 65536;

/// The number of a zone's records of a type.
#[derive(Clone, Copy, Debug, PartialEq, Eq)]
pub struct TypeCount {
    /// The type.
    pub rtype: Rtype,
    /// The number of its records.
    pub count: usize,
}

/// How many records a zone has, of which types, and how many names and delegations.
#[derive(Debug, Drop)]
pub struct Statistics {
    /// The number of records.
    pub records: usize,
    /// The number of names that own records, up to ASCII case.
    pub names: usize,
    /// The number of names below the apex that have name servers of their own (RFC 1034 4.2.1).
    pub delegations: usize,
    /// The number of records of each type that the zone has, in ascending order of type.
    pub types: Vec<TypeCount>,
}

/// Returns how many records, names and delegations the zone has. Fails if out of memory.
#[tactic(auto, using(zone::proofs::ZoneForms::zone_forms))]
pub fn statistics_of(alloc: Global, zone: &Zone) -> Result<Statistics, AllocError>
    ensures { IfOk result (AreStatistics zone.now.records) }
{
    let records = records_of(zone);
    let forms = canonical_forms(alloc, records)?;
    let apex = zone.apex();
    Ok(Statistics {
        records: records.len(),
        names: count_owners(&forms, &apex, false),
        delegations: count_owners(&forms, &apex, true),
        types: type_counts(alloc, records)?,
    })
}

/// Returns the number of octets of the stream of the zone's transfer, in messages of at most `max` octets, each after
/// its length in two octets. Fails as `send` fails for the zone's own query with the ID 0.
pub fn stream_len(
    alloc: Global,
    zone: &Zone,
    max: u16,
    spelling: Spelling,
) -> Result<usize, SendError>
    ensures ok { IfOk result (IsStreamLen spelling zone.now max) }
    ensures err { IfErr result (IsSendFault spelling zone.now.records (apex_of zone.now.records) zone.now.class (transfer_query zone.now) max) }
{
    let apex = zone.apex();
    // This shows the proof that the apex is a name.
    let _octets = apex.as_slice();
    let query = axfr_query(alloc, 0, zone.class(), &apex)?;
    let stream = send(alloc, zone, query.as_slice(), max, spelling)?;
    Ok(stream.len())
}

/// Returns the number of names that own one of the forms that are counted. Forms with the same owner follow each other.
fn count_owners(forms: &RecordList, apex: &Name<&[u8]>, only_delegations: bool) -> usize
    requires { IsStrictlySortedBy canonical_cmp forms.now }
    ensures { IsOwnerCount (IsCounted only_delegations apex.now) forms.now result }
{
    let mut count = 0;
    let mut last = None;
    for index in 0..forms.len() {
        let form = forms.record_at(index);
        let owner = form.owner();
        if is_counted(&form, apex, only_delegations) && !is_last(&last, &owner) {
            count += 1;
            last = Some(owner);
        }
    }
    count
}

/// Returns whether the record is counted: any is, or only those of delegations.
fn is_counted(record: &Record<'_>, apex: &Name<&[u8]>, only_delegations: bool) -> bool
    ensures { IsTrue result ↔ IsCounted only_delegations apex.now «record».now }
{
    !only_delegations || (record.rtype() == Rtype::NS && !record.is_at(apex))
}

/// Returns whether there is a last name, and it is this one, up to ASCII case.
fn is_last(last: &Option<Name<&[u8]>>, name: &Name<&[u8]>) -> bool
    ensures { IsTrue result ↔ IsLast last.now name.now }
{
    match last {
        Some(last) => last.name_eq(name),
        None => false,
    }
}

/// Returns the number of records of each type that the records have, in ascending order of type. Fails if out of memory.
fn type_counts(alloc: Global, records: &RecordList) -> Result<Vec<TypeCount>, AllocError>
    requires { AllByRecursion HasCanonicalForm records.now }
    ensures { IfOk result (λ counts. AreTypeCounts records.now counts.items) }
{
    let counters = counters_of(alloc, records)?;
    nonzero(alloc, counters.as_slice())
}

/// Returns the number of records of each type, at the number of the type. Fails if out of memory.
fn counters_of(alloc: Global, records: &RecordList) -> Result<Vec<usize>, AllocError>
    ensures { IfOk result (λ counters. AreCounters records.now counters.items) }
{
    let mut counters = no_counters(alloc)?;
    for index in 0..records.len() {
        let rtype = records.record_at(index).rtype().to_int();
        counters[rtype as usize] += 1;
    }
    Ok(counters)
}

/// Returns a counter of 0 for each type. Fails if out of memory.
fn no_counters(alloc: Global) -> Result<Vec<usize>, AllocError>
    ensures { IfOk result (λ counters. AreCounters [] counters.items) }
{
    vec![in alloc; 0usize; TYPES]
}

/// Returns the counters that are not 0, each with the type whose number is its place. Fails if out of memory.
fn nonzero(alloc: Global, counters: &[usize]) -> Result<Vec<TypeCount>, AllocError>
    requires { length counters.now ≡ 65536 }
    ensures { IfOk result (λ counts. AreCountsBelow counters.now 65536 counts.items) }
{
    let mut counts = Vec::new(alloc);
    for number in 0..TYPES {
        let count = counters[number];
        if count > 0 {
            counts.push(TypeCount {
                rtype: Rtype::from_int(number as u16),
                count,
            })?;
        }
    }
    Ok(counts)
}
