//! Data of any type as text (RFC 3597 5).
ghost use Rattle.std.specs.Prelude.{Some};
ghost use Rattle.std.specs.Fmt.{DisplaysOnOk};
ghost use Rattle.dns_name.specs.UnknownText.{hex_of, unknown_text};

use super::UnknownRecordData;
use dns_octets::Octets;
use std::fmt;

/// Writes `\#`, the number of octets, and these in base 16, if there are any.
impl<Octs: Octets> fmt::Display for UnknownRecordData<Octs> {
    ghost output = { λ rdata. Some (unknown_text rdata.octets) };

    fn fmt<W: fmt::Write>(&self, f: &mut fmt::Formatter<W>) -> fmt::Result {
        write_unknown(f, self.octets.octets())
    }
}

/// Writes the number of octets, and then these.
fn write_unknown<W: fmt::Write>(f: &mut fmt::Formatter<W>, octets: &[u8]) -> fmt::Result
    ensures { DisplaysOnOk W.write_str_gives f.old result (Some (unknown_text octets.now)) f.new }
{
    write!(f, "\\# {}", octets.len())?;
    if octets.is_empty() {
        return Ok(());
    }
    write!(f, " ")?;
    write_hex(f, octets)
}

/// Writes two hexadecimal digits, in capitals, for each octet.
fn write_hex<W: fmt::Write>(f: &mut fmt::Formatter<W>, octets: &[u8]) -> fmt::Result
    ensures { DisplaysOnOk W.write_str_gives f.old result (Some (hex_of octets.now)) f.new }
{
    for &octet in octets {
        write!(f, "{octet:02X}")?;
    }
    Ok(())
}
