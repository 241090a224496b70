//! Values of one token, and unknown data.
ghost use Rattle.std.specs.Prelude.{[], ◌∷◌, OnOk, decimal};
ghost use Rattle.dns_name.specs.Mnemonic.{class_written, type_written};
ghost use Rattle.dns_text.specs.Document.Piece.{Token};
ghost use Rattle.dns_text.specs.Documents.{block_of, unknown_tokens};
ghost use Rattle.dns_text.specs.Writing.{Adds};

use crate::base16;
use crate::formatter::Formatter;
use crate::zonefile_fmt::ZonefileFmt;
use dns_name::{Class, Octets, Rtype, Serial, Ttl, UnknownRecordData};
use std::fmt;

impl ZonefileFmt for Serial {
    ghost document = { λ serial. Token (decimal serial) ∷ [] };

    fn fmt<F: Formatter>(&self, formatter: &mut F) -> fmt::Result {
        formatter.write_token(self.into_int())
    }
}

impl ZonefileFmt for Ttl {
    ghost document = { λ ttl. Token (decimal ttl) ∷ [] };

    fn fmt<F: Formatter>(&self, formatter: &mut F) -> fmt::Result {
        formatter.write_token(self.as_secs())
    }
}

impl ZonefileFmt for Rtype {
    ghost document = { λ rtype. Token (type_written rtype) ∷ [] };

    fn fmt<F: Formatter>(&self, formatter: &mut F) -> fmt::Result {
        let &rtype = self;
        formatter.write_token(rtype)
    }
}

impl ZonefileFmt for Class {
    ghost document = { λ class. Token (class_written class) ∷ [] };

    fn fmt<F: Formatter>(&self, formatter: &mut F) -> fmt::Result {
        let &class = self;
        formatter.write_token(class)
    }
}

/// One block with `\#`, the number of octets, and these in base 16, if there are any (RFC 3597 5).
impl<Octs: Octets> ZonefileFmt for UnknownRecordData<Octs> {
    ghost document = { λ rdata. block_of (unknown_tokens rdata.octets) };

    fn fmt<F: Formatter>(&self, formatter: &mut F) -> fmt::Result {
        let octets = self.data().octets();
        formatter.block(
            |inner: &mut F| -> fmt::Result
                ensures { OnOk result (Adds F.writes inner.old (unknown_tokens octets.entry.now) inner.new) }
            { write_unknown(inner, octets) },
        )
    }
}

/// Writes the tokens of unknown data.
fn write_unknown<F: Formatter>(formatter: &mut F, octets: &[u8]) -> fmt::Result
    ensures { OnOk result (Adds F.writes formatter.old (unknown_tokens octets.now) formatter.new) }
{
    formatter.write_token("\\#")?;
    formatter.write_token(octets.len())?;
    if octets.is_empty() {
        return Ok(());
    }
    formatter.write_token(base16::display(octets))
}
