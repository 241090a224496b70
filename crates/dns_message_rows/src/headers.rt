//! The first four octets of a message, and flags as text (RFC 1035 4.1.1).
use dns_message::{Flags, Header};
use dns_name::{Opcode, Rcode};
use rows::{Answer, Row, RowError};
use std::alloc::Global;

pub fn answer(alloc: Global, row: &mut Row<'_>, out: &mut Answer) -> Result<(), RowError> {
    if row.call() == "Flags::from_str" {
        let text = row.text(alloc)?;
        return match text.as_str().parse::<Flags>() {
            Ok(flags) => out.shown(&flags),
            Err(error) => out.refused(&error),
        };
    }
    let octets = row.octets(alloc)?;
    if octets.len() < 4 {
        return Err(RowError::BadWord);
    }
    let mut header = Header::for_message_slice(octets.as_slice());
    match row.call() {
        "Header::for_message_slice" => return fields(header, out),
        "Header::flags" => return out.shown(&header.flags()),
        "Header::set_id" => header.set_id(row.value()?),
        "Header::set_opcode" => header.set_opcode(Opcode::from_int(row.value()?)),
        "Header::set_rcode" => header.set_rcode(Rcode::masked_from_int(row.value()?)),
        "Header::set_flags" => match row.text(alloc)?.as_str().parse() {
            Ok(flags) => header.set_flags(flags),
            Err(_) => return Err(RowError::BadWord),
        },
        _ => {
            let set = row.value()?;
            set_bit(row.call(), &mut header, set)?;
        }
    }
    out.octets(header.as_slice())
}

/// Sets the bit that a call names.
fn set_bit(call: &str, header: &mut Header, set: bool) -> Result<(), RowError> {
    match call {
        "Header::set_qr" => header.set_qr(set),
        "Header::set_aa" => header.set_aa(set),
        "Header::set_tc" => header.set_tc(set),
        "Header::set_rd" => header.set_rd(set),
        "Header::set_ra" => header.set_ra(set),
        "Header::set_z" => header.set_z(set),
        "Header::set_ad" => header.set_ad(set),
        "Header::set_cd" => header.set_cd(set),
        _ => return Err(RowError::UnknownCall),
    }
    Ok(())
}

/// Writes the ID, the opcode, the response code, and the names of the bits that are set.
fn fields(header: Header, out: &mut Answer) -> Result<(), RowError> {
    out.shown(&header.id())?;
    out.shown(&header.opcode().to_int())?;
    out.shown(&header.rcode().to_int())?;
    let bits = [
        ("qr", header.qr()),
        ("aa", header.aa()),
        ("tc", header.tc()),
        ("rd", header.rd()),
        ("ra", header.ra()),
        ("z", header.z()),
        ("ad", header.ad()),
        ("cd", header.cd()),
    ];
    for (name, is_set) in bits {
        if is_set {
            out.shown(&name)?;
        }
    }
    Ok(())
}
