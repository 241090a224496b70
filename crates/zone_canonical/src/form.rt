//! Records in canonical form (RFC 4034 6.2): compared, and appended as octets. They are read where they are stored,
//! without parsing.
ghost use Rattle.std.specs.Prelude.{◌≡◌, ◌≤◌, ◌-◌, ◌++◌, ℕ, List, IfSome, IsTrue, OnOk, length, take, drop, map};
ghost use Rattle.std.specs.Char.{to_ascii_lowercase};
ghost use Rattle.zone_records.specs.MessageRecord.{record_octets};
ghost use Rattle.dns_wire.specs.Order.{labels_order};
ghost use Rattle.zone_canonical.specs.Canonical.{HasCanonicalForm, canonical_cmp};
ghost use Rattle.zone_canonical.specs.DataForm.{EndsInNames, data_form};
ghost use Rattle.zone_canonical.specs.Form.{form_of};

use dns_name::{Name, Rtype, ToName};
use dns_rdata::{append_canonical_data, canonical_data_cmp};
use std::alloc::AllocError;
use std::cmp::Ordering;
use zone_records::record::Record;

/// How many octets are put in lower case together.
const BLOCK: usize = 16;

/// Compares two records in canonical form: by owner, type and data (RFC 4034 6.1, 6.3), then by TTL, then by class.
pub(crate) fn cmp_forms(record: &Record<'_>, other: &Record<'_>) -> Ordering
    requires one { HasCanonicalForm «record».now }
    requires other { HasCanonicalForm other.now }
    ensures { result ≡ canonical_cmp (form_of «record».now) (form_of other.now) }
{
    let owners = cmp_owners(&record.owner(), &other.owner());
    match owners.then(record.rtype().cmp(&other.rtype())) {
        Ordering::Equal => {
            let fixed = record
                .ttl()
                .cmp(&other.ttl())
                .then(record.class().cmp(&other.class()));
            canonical_data_cmp(record.rtype(), record.data(), other.data()).then(fixed)
        }
        unequal => unequal,
    }
}

/// Compares owners label by label from the right, up to ASCII case (RFC 4034 6.1). Most equal owners are equal in case
/// too, and that test is faster.
fn cmp_owners(owner: &Name<&[u8]>, other: &Name<&[u8]>) -> Ordering
    ensures { result ≡ labels_order owner.now other.now }
{
    if owner.as_slice() == other.as_slice() {
        Ordering::Equal
    } else {
        owner.name_cmp(other)
    }
}

/// Appends the octets of a record in canonical form. Fails if out of memory.
pub(crate) fn append_form(record: &Record<'_>, octets: &mut Vec<u8>) -> Result<(), AllocError>
    requires { HasCanonicalForm «record».now }
    ensures { OnOk result (octets.new.items ≡ octets.old.items ++ record_octets (form_of «record».now)) }
{
    let whole = record.as_octets();
    let owner = record.owner();
    if has_no_names(record.rtype()) {
        return append_lowered(whole, owner.len(), octets);
    }
    // Data in canonical form has the same length, so RDLENGTH stays too.
    let data = record.data();
    if let Some(place) = names_at(record.rtype()) {
        append_lowered(whole, owner.len(), octets)?;
        lower_end(octets, data.len() - place);
        return Ok(());
    }
    append_lowered(&whole[..whole.len() - data.len()], owner.len(), octets)?;
    append_canonical_data(record.rtype(), data, octets)
}

/// Returns whether the type is one of the commonest whose data has no names, so that it is in canonical form.
#[inline(always)]
fn has_no_names(rtype: Rtype) -> bool
    ensures { IsTrue result → (rdata : List ℕ) → data_form rtype rdata ≡ rdata }
{
    matches!(
        rtype,
        Rtype::A | Rtype::AAAA | Rtype::TXT | Rtype::DS | Rtype::HINFO | Rtype::CAA
    )
}

/// Returns where the names are that the data of a type ends with, if it is one of the commonest such types. No octet of
/// a name's wire form is a letter but those of its labels, so the form of such data has all octets from there on in
/// lower case.
#[inline(always)]
fn names_at(rtype: Rtype) -> Option<usize>
    ensures { IfSome result (λ place. EndsInNames rtype place) }
{
    match rtype {
        Rtype::NS | Rtype::CNAME | Rtype::PTR | Rtype::RP => Some(0),
        Rtype::MX => Some(2),
        Rtype::SRV => Some(6),
        _ => None,
    }
}

/// Appends octets that begin with a name of this length, with its ASCII letters in lower case. Fails if out of memory.
/// It is called once per record of a zone, so it is inlined.
#[inline(always)]
fn append_lowered(source: &[u8], name_len: usize, octets: &mut Vec<u8>) -> Result<(), AllocError>
    requires { name_len ≤ length source.now }
    ensures { OnOk result (octets.new.items
        ≡ octets.old.items ++ (map to_ascii_lowercase (take name_len source.now) ++ drop name_len source.now)) }
{
    let start = octets.len();
    octets.extend_from_slice(source)?;
    lower_front(&mut octets.as_mut_slice()[start..], name_len);
    Ok(())
}

/// Puts the ASCII letters of the first octets in lower case. Those of most owners are in two blocks of a known length,
/// which takes fewer steps. The blocks may overlap: letters that are lowered twice are as those that are lowered once.
#[inline(always)]
fn lower_front(octets: &mut [u8], count: usize)
    requires { count ≤ length octets.old }
    ensures { octets.new ≡ map to_ascii_lowercase (take count octets.old) ++ drop count octets.old }
{
    if count < BLOCK || 2 * BLOCK < count {
        octets[..count].make_ascii_lowercase();
    } else {
        octets[..BLOCK].make_ascii_lowercase();
        octets[count - BLOCK..count].make_ascii_lowercase();
    }
}

/// Puts the ASCII letters of the last octets in lower case.
#[inline(always)]
fn lower_end(octets: &mut Vec<u8>, count: usize)
    requires { count ≤ length octets.old.items }
    ensures { octets.new.items ≡ take (length octets.old.items - count) octets.old.items
        ++ map to_ascii_lowercase (drop (length octets.old.items - count) octets.old.items) }
{
    let start = octets.len() - count;
    octets.as_mut_slice()[start..].make_ascii_lowercase();
}
