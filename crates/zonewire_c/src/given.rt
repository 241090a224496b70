//! What C passes to a call: names and zones as text, layouts and spellings by their numbers.
ghost use Rattle.std.specs.Prelude.{◌≡◌, List, length, IfOk, IfErr};
ghost use Rattle.zone_records.specs.Record.{Record};
ghost use Rattle.dns_label.specs.NameText.{IsNameText};
ghost use Rattle.zonewire_c.specs.Given.{IsLayout, IsNameFault, IsNoLayout, IsNoSpelling, IsSpelling, IsTextFault, IsTextOf};
ghost use Rattle.zonewire_c.specs.declared.fault.Fault.TheVariants as fault;

use crate::fault::Fault;
use dns_name::{Class, FromStrError, Name};
use std::alloc::Global;
use std::str;
use zonewire::{DisplayKind, Spelling, Zone};

/// Returns the name that a text spells, with or without its last dot. Fails with `BadName` if it spells none, or if out
/// of memory.
pub(crate) fn read_name(alloc: Global, text: &[u8]) -> Result<Name<Vec<u8>>, Fault>
    ensures ok { IfOk result (IsNameText text.now) }
    ensures err { IfErr result (IsNameFault text.now) }
{
    let Ok(text) = str::from_utf8(text) else {
        return Err(Fault::BadName);
    };
    match Name::vec_from_str(alloc, text) {
        Ok(name) => Ok(name),
        Err(FromStrError::Presentation(_)) => Err(Fault::BadName),
        Err(FromStrError::ShortBuf) => Err(Fault::OutOfMemory),
    }
}

/// Returns the zone of a text. Its names are relative to the origin, or absolute if the origin has no octets. Fails with
/// `BadName` if the origin is not a name, otherwise with the first rule that the text breaks, or if out of memory.
pub(crate) fn read_zone(
    alloc: Global,
    text: &[u8],
    origin: &[u8],
    class: u16,
) -> Result<Zone, Fault>
    ensures ok { IfOk result (λ zone. IsTextOf text.now origin.now class zone.records) }
    ensures class_is { IfOk result (λ zone. zone.class ≡ class) }
    ensures err { IfErr result (IsTextFault text.now origin.now class) }
{
    let class = Class::from_int(class);
    let zone = if origin.is_empty() {
        Zone::read(alloc, text, None, class)
    } else {
        let name = read_name(alloc, origin)?;
        Zone::read(alloc, text, Some(&name.for_ref()), class)
    };
    zone.map_err(Fault::Zone)
}

/// Returns the number of records in the zone of a text, as `read_zone` reads it. Fails as `read_zone` does.
pub(crate) fn count_records(
    alloc: Global,
    text: &[u8],
    origin: &[u8],
    class: u16,
) -> Result<usize, Fault>
    ensures ok { IfOk result (λ count. (records : List Record) × IsTextOf text.now origin.now class records × (count ≡ length records)) }
    ensures err { IfErr result (IsTextFault text.now origin.now class) }
{
    let class = Class::from_int(class);
    let text = Vec::from_slice(alloc, text)?;
    let count = if origin.is_empty() {
        Zone::count_records(alloc, text, None, class)
    } else {
        let name = read_name(alloc, origin)?;
        Zone::count_records(alloc, text, Some(&name.for_ref()), class)
    };
    count.map_err(Fault::Zone)
}

/// Returns the layout of a number. Fails with `BadLayout` if there is none.
pub(crate) fn layout_at(number: u8) -> Result<DisplayKind, Fault>
    ensures ok { IfOk result (IsLayout number) }
    ensures err { IfErr result (λ error. (error ≡ fault.BadLayout) × IsNoLayout number) }
{
    match number {
        0 => Ok(DisplayKind::Simple),
        1 => Ok(DisplayKind::Tabbed),
        2 => Ok(DisplayKind::Multiline),
        _ => Err(Fault::BadLayout),
    }
}

/// Returns the spelling of a number. Fails with `BadSpelling` if there is none.
pub(crate) fn spelling_at(number: u8) -> Result<Spelling, Fault>
    ensures ok { IfOk result (IsSpelling number) }
    ensures err { IfErr result (λ error. (error ≡ fault.BadSpelling) × IsNoSpelling number) }
{
    match number {
        0 => Ok(Spelling::Plain),
        1 => Ok(Spelling::Static),
        2 => Ok(Spelling::Tree),
        3 => Ok(Spelling::Hash),
        _ => Err(Fault::BadSpelling),
    }
}
