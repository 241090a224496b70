//! The types: what each is made of, and the fields that its getters return.
use crate::further_data::data::{self, octets_or};
use dns_name::{Name, Rtype, Serial, Ttl};
use dns_rdata_more::{
    Cdnskey, Cds, Cert, Csync, Eui48, Eui64, Https, Loc, Naptr, Nsec, Nsec3, Nsec3param,
    Openpgpkey, Rrsig, Smimea, Svcb, Tlsa, Uri, Zonemd,
};
use dns_rr_data::Number;
use rows::{Answer, Row, RowError};
use std::alloc::Global;

/// Answers a call of the type with this number, whose fields are of these kinds and have these getters.
macro_rules! answered {
    ($alloc:ident, $row:ident, $out:ident, $number:literal $type:ident: $($kind:ident $getter:ident),*) => {
        match $row.method() {
            "new" => octets_or($type::new($alloc, $(taken!($kind, $alloc, $row)),*), $out),
            "fields" => match $type::from_octets($row.octets($alloc)?.as_slice()) {
                Ok(data) => {
                    $(written!($kind, $out, data.$getter())?;)*
                    Ok(())
                }
                Err(error) => $out.refused(&error),
            },
            _ => data::answer::<Number<$number>>($alloc, $row, $out),
        }
    };
}

/// Takes a field as the constructor of its type has it.
macro_rules! taken {
    (octets, $alloc:ident, $row:ident) => { $row.octets($alloc)?.as_slice() };
    (types, $alloc:ident, $row:ident) => { types($alloc, $row)?.as_slice() };
    (name, $alloc:ident, $row:ident) => { &name($alloc, $row)? };
    (six, $alloc:ident, $row:ident) => {
        &<[u8; 6]>::try_from($row.octets($alloc)?.as_slice()).map_err(|_| RowError::BadWord)?
    };
    (eight, $alloc:ident, $row:ident) => {
        &<[u8; 8]>::try_from($row.octets($alloc)?.as_slice()).map_err(|_| RowError::BadWord)?
    };
    (serial, $alloc:ident, $row:ident) => { Serial($row.value()?) };
    (ttl, $alloc:ident, $row:ident) => { Ttl::from_secs($row.value()?) };
    (number, $alloc:ident, $row:ident) => { $row.value()? };
}

/// Writes a field as the getter of its type returns it.
macro_rules! written {
    (number, $out:ident, $value:expr) => { $out.shown(&$value) };
    (serial, $out:ident, $value:expr) => { $out.shown(&$value) };
    (name, $out:ident, $value:expr) => { $out.shown(&$value) };
    (ttl, $out:ident, $value:expr) => { $out.shown(&$value.as_secs()) };
    (types, $out:ident, $value:expr) => { $out.octets($value.as_slice()) };
    ($kind:ident, $out:ident, $value:expr) => { $out.octets($value) };
}

/// Takes the octets of a name.
pub fn name(alloc: Global, row: &mut Row<'_>) -> Result<Name<Vec<u8>>, RowError> {
    match Name::from_octets(row.octets(alloc)?) {
        Ok(name) => Ok(name),
        Err(_) => Err(RowError::BadWord),
    }
}

/// Takes all types that are left.
fn types(alloc: Global, row: &mut Row<'_>) -> Result<Vec<Rtype>, RowError> {
    let mut types = Vec::new(alloc);
    for _ in 0..u32::MAX {
        if !row.has_more() {
            break;
        }
        types.push(row.value()?)?;
    }
    Ok(types)
}

/// Answers a call of a type.
pub fn answer(alloc: Global, row: &mut Row<'_>, out: &mut Answer) -> Result<(), RowError> {
    match row.family() {
        "Loc" => answered!(alloc, row, out, 29 Loc: octets location),
        "Openpgpkey" => answered!(alloc, row, out, 61 Openpgpkey: octets key),
        "Eui48" => answered!(alloc, row, out, 108 Eui48: six address),
        "Eui64" => answered!(alloc, row, out, 109 Eui64: eight address),
        "Uri" => answered!(alloc, row, out, 256 Uri: number priority, number weight, octets target),
        _ => of_digests(alloc, row, out),
    }
}

/// Answers a call of a type with three numbers, and then a digest, a key or a certificate.
fn of_digests(alloc: Global, row: &mut Row<'_>, out: &mut Answer) -> Result<(), RowError> {
    match row.family() {
        "Cert" =>
            answered!(alloc, row, out, 37 Cert: number cert_type, number key_tag, number algorithm,
            octets certificate),
        "Tlsa" =>
            answered!(alloc, row, out, 52 Tlsa: number cert_usage, number selector, number matching_type,
            octets cert_association_data),
        "Smimea" =>
            answered!(alloc, row, out, 53 Smimea: number cert_usage, number selector, number matching_type,
            octets cert_association_data),
        "Cds" =>
            answered!(alloc, row, out, 59 Cds: number key_tag, number algorithm, number digest_type, octets digest),
        "Cdnskey" =>
            answered!(alloc, row, out, 60 Cdnskey: number flags, number protocol, number algorithm,
            octets public_key),
        "Zonemd" =>
            answered!(alloc, row, out, 63 Zonemd: serial serial, number scheme, number algo, octets digest),
        _ => of_bitmaps(alloc, row, out),
    }
}

/// Answers a call of a type with a bitmap or with a salt.
fn of_bitmaps(alloc: Global, row: &mut Row<'_>, out: &mut Answer) -> Result<(), RowError> {
    match row.family() {
        "Nsec" => answered!(alloc, row, out, 47 Nsec: name next_name, types types),
        "Nsec3" =>
            answered!(alloc, row, out, 50 Nsec3: number hash_algorithm, number flags, number iterations,
            octets salt, octets next_owner, types types),
        "Nsec3param" =>
            answered!(alloc, row, out, 51 Nsec3param: number hash_algorithm, number flags,
            number iterations, octets salt),
        "Csync" => answered!(alloc, row, out, 62 Csync: serial serial, number flags, types types),
        _ => of_names(alloc, row, out),
    }
}

/// Answers a call of one of the other types, which have a name.
fn of_names(alloc: Global, row: &mut Row<'_>, out: &mut Answer) -> Result<(), RowError> {
    match row.family() {
        "Naptr" =>
            answered!(alloc, row, out, 35 Naptr: number order, number preference, octets flags, octets services,
            octets regexp, name replacement),
        "Rrsig" =>
            answered!(alloc, row, out, 46 Rrsig: number type_covered, number algorithm, number labels,
            ttl original_ttl, serial expiration, serial inception, number key_tag, name signer_name, octets signature),
        "Svcb" => answered!(alloc, row, out, 64 Svcb: number priority, name target, octets params),
        "Https" =>
            answered!(alloc, row, out, 65 Https: number priority, name target, octets params),
        _ => Err(RowError::UnknownCall),
    }
}
