//! The records of a zone's text, parsed in place (RFC 1035 5).
ghost use Rattle.std.specs.Prelude.{◌≡◌, ◌≢◌, ◌<◌, [], ℕ, List, Option, Some, None, Ok, true, false, length, option_copied, IfOk, IfErr, IfSome, OnOk};
ghost use Rattle.std.specs.List.{push};
ghost use Rattle.dns_label.specs.Name.{IsName, wire};
ghost use Rattle.dns_zonefile.specs.Reader.{Gives, left_of};
ghost use Rattle.dns_zonefile.specs.ReaderSeen.{reader_of, refused_in};
ghost use Rattle.dns_rdata.specs.Fields.{IsData};
ghost use Rattle.zone_records.specs.Record as spec;
ghost use Rattle.zone_records.specs.Records.{AreRecordsOf};
ghost use Rattle.zone_records.specs.Zone.{any_class};
ghost use Rattle.zone.specs.ZoneText.{IsWellTyped, IsZoneFault, IsZoneText};
ghost use Rattle.zone.specs.Kept.{Keeps};
ghost use Rattle.zone.specs.Reading.{BeginWith, BreaksRule, IsCheckFault, AppendsNext, HasRead, MayStandUnder, StandsLast, name_len, reader_at};

use crate::ZoneError;
use crate::keep::Keeper;
use dns_name::{Class, Name, ToName};
use dns_zonefile::{ComposedEntry, Zonefile};
use std::alloc::{AllocError, Global};
use zone_records::checks::{is_data_of_type, is_spellable};
use zone_records::octets::are_octets;
use zone_records::record::Record;
use zone_records::record_list::RecordList;

/// Reads the records of the text of a zone of the class. Names are relative to the origin, if there is one.
///
/// Fails with the first rule that is broken, or with `OutOfMemory` if out of memory.
pub(crate) fn read_records(
    alloc: Global,
    text: Vec<u8>,
    origin: Option<&Name<&[u8]>>,
    class: Class,
) -> Result<RecordList, ZoneError>
    requires { class ≢ any_class }
    ensures ok { IfOk result (IsZoneText text.items (option_copied origin.entry) class) }
    ensures known { IfOk result (AreRecordsOf class) }
    ensures err { IfErr result (IsZoneFault text.items (option_copied origin.entry) class) }
{
    let mut keeper = Keeper::of_all(alloc);
    let octets = read_all(alloc, text, origin, class, &mut keeper)?;
    are_octets(&octets);
    Ok(RecordList::from_octets(octets, keeper.places))
}

/// Returns the number of records in the text of a zone of the class. Names are relative to the origin, if there is one.
/// Keeps only the first record.
///
/// Fails with the first rule that is broken, or with `OutOfMemory` if out of memory.
pub(crate) fn count_records(
    alloc: Global,
    text: Vec<u8>,
    origin: Option<&Name<&[u8]>>,
    class: Class,
) -> Result<usize, ZoneError>
    requires { class ≢ any_class }
    ensures ok { IfOk result (λ count. (records : List spec.Record) × IsZoneText text.items (option_copied origin.entry) class records
        × (count ≡ length records)) }
    ensures err { IfErr result (IsZoneFault text.items (option_copied origin.entry) class) }
{
    let mut keeper = Keeper::of_first(alloc);
    let _first = read_all(alloc, text, origin, class, &mut keeper)?;
    Ok(keeper.count)
}

/// Reads the records of the text of a zone of the class. Returns the octets of those that the keeper keeps. Names are
/// relative to the origin, if there is one.
///
/// Fails with the first rule that is broken, or with `OutOfMemory` if out of memory.
fn read_all(
    alloc: Global,
    text: Vec<u8>,
    origin: Option<&Name<&[u8]>>,
    class: Class,
    keeper: &mut Keeper,
) -> Result<Vec<u8>, ZoneError>
    requires known { class ≢ any_class }
    requires empty { Keeps keeper.old [] [] }
    ensures ok { IfOk result (λ octets. (records : List spec.Record) × IsZoneText text.items (option_copied origin.entry) class records
        × Keeps keeper.new octets.items records) }
    ensures kind { OnOk result (keeper.new.first_only ≡ keeper.old.first_only) }
    ensures err { IfErr result (IsZoneFault text.items (option_copied origin.entry) class) }
{
    let mut zonefile = zonefile_of(alloc, text, origin, class)?;
    let mut octets = Vec::new(alloc);
    while read_next(alloc, &mut zonefile, &mut octets, keeper)? {}
    if octets.is_empty() {
        return Err(ZoneError::NoSoa);
    }
    Ok(octets)
}

/// Returns a reader of the text of a zone of the class. Names are relative to the origin, if there is one. Fails if out
/// of memory.
pub fn zonefile_of(
    alloc: Global,
    text: Vec<u8>,
    origin: Option<&Name<&[u8]>>,
    class: Class,
) -> Result<Zonefile, AllocError>
    ensures at { IfOk result (λ zonefile. reader_of zonefile ≡ reader_at text.items (option_copied origin.entry) class) }
    ensures unrefused { IfOk result (λ zonefile. refused_in zonefile ≡ None) }
    ensures named { IfOk result (λ _. IfSome (option_copied origin.entry) IsName) }
{
    let mut zonefile = Zonefile::from_vec(alloc, text);
    zonefile.set_default_class(class);
    let Some(origin) = origin else {
        return Ok(zonefile);
    };
    // This shows the proof that it is a name.
    let _octets = origin.as_slice();
    zonefile.set_origin(origin.to_vec(alloc)?);
    Ok(zonefile)
}

/// Reads the next record, and returns whether there was one.
///
/// Fails with the first rule that is broken, or with `OutOfMemory` if out of memory.
fn read_next(
    alloc: Global,
    zonefile: &mut Zonefile,
    octets: &mut Vec<u8>,
    keeper: &mut Keeper,
) -> Result<bool, ZoneError>
    requires unrefused { refused_in zonefile.old ≡ None }
    requires read { (text : List ℕ) × (origin : Option (List (List ℕ))) × (class : ℕ) × (records : List spec.Record)
        × HasRead text origin class (reader_of zonefile.old) records × Keeps keeper.old octets.old.items records }
    ensures unrefused { OnOk result (refused_in zonefile.new ≡ None) }
    ensures more { result ≡ Ok true → (text : List ℕ) (origin : Option (List (List ℕ))) (class : ℕ) (records : List spec.Record)
        → HasRead text origin class (reader_of zonefile.old) records → Keeps keeper.old octets.old.items records
        → (r : spec.Record) × HasRead text origin class (reader_of zonefile.new) (push records r)
        × Keeps keeper.new octets.new.items (push records r) }
    ensures kind { OnOk result (keeper.new.first_only ≡ keeper.old.first_only) }
    ensures shorter { result ≡ Ok true → length (left_of (reader_of zonefile.new)) < length (left_of (reader_of zonefile.old)) }
    ensures end { result ≡ Ok false → Gives (reader_of zonefile.old) (Ok None) (reader_of zonefile.new)
        × (octets.new.items ≡ octets.old.items) × (keeper.new ≡ keeper.old) }
    ensures err { IfErr result (λ error. (text : List ℕ) (origin : Option (List (List ℕ))) (class : ℕ) (records : List spec.Record)
        → HasRead text origin class (reader_of zonefile.old) records → Keeps keeper.old octets.old.items records
        → IsZoneFault text origin class error) }
{
    let place = octets.len();
    let Some(unknown) = append_next(zonefile, octets)? else {
        return Ok(false);
    };
    let owner_len = last_owner_len(zonefile);
    let apex_len = keeper.apex_len;
    let number = zonefile.entry_number();
    check_last(alloc, octets, place, apex_len, owner_len, unknown, number)?;
    keeper.keep(octets, place, owner_len)?;
    Ok(true)
}

/// Returns the number of octets of the last record's owner, or 0 if there was no record.
fn last_owner_len(zonefile: &Zonefile) -> usize
    ensures { result ≡ name_len (reader_of zonefile.now).context.owner }
{
    match zonefile.last_owner() {
        Some(owner) => owner.len(),
        None => 0,
    }
}

/// Appends the octets of the next record. Returns whether the text writes its data in the form of unknown data, or None
/// at the end of the text.
///
/// Fails with `Include` if the next entry includes a file, with `Text` if it cannot be parsed, and with `OutOfMemory`
/// if out of memory.
fn append_next(zonefile: &mut Zonefile, octets: &mut Vec<u8>) -> Result<Option<bool>, ZoneError>
    requires { refused_in zonefile.old ≡ None }
    ensures unrefused { OnOk result (refused_in zonefile.new ≡ None) }
    ensures ok { IfOk result (λ met. AppendsNext (reader_of zonefile.old) octets.old.items met (reader_of zonefile.new) octets.new.items) }
    ensures err { IfErr result (λ error. (text : List ℕ) (origin : Option (List (List ℕ))) (class : ℕ) (records : List spec.Record)
        → HasRead text origin class (reader_of zonefile.old) records → IsZoneFault text origin class error) }
{
    match zonefile.next_octets(octets) {
        Ok(Some(ComposedEntry::Record { unknown })) => Ok(Some(unknown)),
        Ok(Some(ComposedEntry::Include(_))) => Err(ZoneError::Include(zonefile.entry_number())),
        Ok(None) => Ok(None),
        Err(error) if error.is_memory() => Err(ZoneError::OutOfMemory),
        Err(_) => Err(ZoneError::Text(zonefile.entry_number())),
    }
}

/// Checks the record at the place, with the number of its entry. The apex and the record's owner have these numbers of
/// octets; the first is 0 if there is no apex yet.
///
/// Fails if it breaks a rule of the zone whose records come before it, or if out of memory, which only unknown data takes.
fn check_last(
    alloc: Global,
    octets: &[u8],
    place: usize,
    apex_len: usize,
    owner_len: usize,
    unknown: bool,
    number: usize,
) -> Result<(), ZoneError>
    requires { (apex : Option (List (List ℕ))) × (r : spec.Record) × StandsLast octets.now place apex r × (apex_len ≡ name_len apex)
        × (owner_len ≡ length (wire r.owner)) × (unknown ≡ false → IsData r.rtype r.rdata) }
    ensures ok { OnOk result ((apex : Option (List (List ℕ))) (r : spec.Record) → StandsLast octets.now place apex r
        → apex_len ≡ name_len apex → IsWellTyped r × MayStandUnder apex r) }
    ensures err { IfErr result (λ error. (apex : Option (List (List ℕ))) (r : spec.Record) → StandsLast octets.now place apex r
        → apex_len ≡ name_len apex → IsCheckFault unknown number apex r error) }
{
    let (before, record) = octets.split_at(place);
    let record = Record::with_owner_len(record, owner_len);
    check_record(alloc, apex_of(before, apex_len), &record, unknown, number)
}

/// Checks a record, with the number of its entry. Fails if it breaks a rule of the zone with this apex, or cannot be a
/// zone's first record if there is no apex yet; or if out of memory. The text may write its data in the form of unknown
/// data although its type has fields.
pub fn check_record(
    alloc: Global,
    apex: Option<Name<&[u8]>>,
    record: &Record<'_>,
    unknown: bool,
    number: usize,
) -> Result<(), ZoneError>
    requires { unknown ≡ false → IsData «record».now.rtype «record».now.rdata }
    ensures ok { OnOk result (IsWellTyped «record».now × MayStandUnder apex.entry «record».now) }
    ensures err { IfErr result (IsCheckFault unknown number apex.entry «record».now) }
{
    check_data(alloc, record, unknown, number)?;
    check_place(apex, record, number)?;
    if !is_spellable(record) {
        return Err(ZoneError::Unspellable(number));
    }
    Ok(())
}

/// Checks the data of a record. Fails with `Untyped` if the text writes it in the form of unknown data and it is not
/// data of its type. Takes memory only for data in that form, and fails with `OutOfMemory` if there is none.
fn check_data(
    alloc: Global,
    record: &Record<'_>,
    unknown: bool,
    number: usize,
) -> Result<(), ZoneError>
    requires { unknown ≡ false → IsData «record».now.rtype «record».now.rdata }
    ensures ok { OnOk result (IsData «record».now.rtype «record».now.rdata) }
    ensures err { IfErr result (λ error. (apex : Option (List (List ℕ))) → IsCheckFault unknown number apex «record».now error) }
{
    if !unknown {
        return Ok(());
    }
    check_unknown_data(alloc, record, number)
}

/// Checks data in the form of unknown data. Few records have it, so this is not inlined.
#[inline(never)]
fn check_unknown_data(alloc: Global, record: &Record<'_>, number: usize) -> Result<(), ZoneError>
    ensures ok { OnOk result (IsData «record».now.rtype «record».now.rdata) }
    ensures err { IfErr result (λ error. (apex : Option (List (List ℕ))) → IsCheckFault true number apex «record».now error) }
{
    if is_data_of_type(alloc, record.rtype(), record.data())? {
        Ok(())
    } else {
        Err(ZoneError::Untyped(number))
    }
}

/// Checks the owner and the type of a record. Fails if it may not be in the zone with this apex, or first in a zone if
/// there is no apex yet.
fn check_place(
    apex: Option<Name<&[u8]>>,
    record: &Record<'_>,
    number: usize,
) -> Result<(), ZoneError>
    requires { IsData «record».now.rtype «record».now.rdata }
    ensures ok { OnOk result (MayStandUnder apex.entry «record».now) }
    ensures err { IfErr result (BreaksRule number apex.entry «record».now) }
{
    let Some(apex) = apex else {
        return if record.is_soa() {
            Ok(())
        } else {
            Err(ZoneError::FirstNotSoa(number))
        };
    };
    if record.is_soa() {
        return Err(ZoneError::SecondSoa(number));
    }
    if !record.is_under(&apex) {
        return Err(ZoneError::OutOfZone(number));
    }
    Ok(())
}

/// Returns the owner of the first of the records that these octets are, which has this number of them; or None if the
/// number is 0.
fn apex_of(octets: &[u8], len: usize) -> Option<Name<&[u8]>>
    requires { (apex : Option (List (List ℕ))) × BeginWith apex octets.now × (len ≡ name_len apex) }
    ensures { (apex : Option (List (List ℕ))) → BeginWith apex octets.now → len ≡ name_len apex → result ≡ apex }
{
    if len == 0 {
        return None;
    }
    Some(Name::from_octets_unchecked(&octets[..len]))
}
