//! Records as text.
ghost use Rattle.std.specs.Prelude.{[], ◌∷◌, Some, OnOk};
ghost use Rattle.dns_label.specs.Printed.{printed_name};
ghost use Rattle.dns_text.specs.Document.{document_text};
ghost use Rattle.dns_text.specs.Document.Layout.{Simple};
ghost use Rattle.dns_text.specs.Document.Piece.{Token};
ghost use Rattle.dns_text.specs.Writing.{Adds};
ghost use Rattle.dns_header.specs.Shown.{record_document};

use super::Record;
use dns_name::{RecordData, ToName};
use dns_text::{DisplayKind, Formatter, ZonefileFmt};
use std::fmt;

/// Writes owner, TTL, class and type, and then the data (RFC 1035 5.1).
impl<N: ToName, Data: RecordData + ZonefileFmt> ZonefileFmt for Record<N, Data> {
    ghost document = { λ rr. record_document (N.name rr.owner) rr.ttl rr.class (Data.rtype rr.rdata) (Data.document rr.rdata) };

    fn fmt<F: Formatter>(&self, formatter: &mut F) -> fmt::Result {
        formatter.write_token(self.owner.fmt_with_dot())?;
        ZonefileFmt::fmt(&self.ttl, formatter)?;
        ZonefileFmt::fmt(&self.class, formatter)?;
        ZonefileFmt::fmt(&self.data.rtype(), formatter)?;
        ZonefileFmt::fmt(&self.data, formatter)
    }
}

/// Writes one space between two tokens.
impl<N: ToName, Data: RecordData + ZonefileFmt> fmt::Display for Record<N, Data> {
    ghost output = { λ rr. Some (document_text Simple
        (record_document (N.name rr.owner) rr.ttl rr.class (Data.rtype rr.rdata) (Data.document rr.rdata))) };

    fn fmt<W: fmt::Write>(&self, f: &mut fmt::Formatter<W>) -> fmt::Result {
        fmt::Display::fmt(&self.display_zonefile(DisplayKind::Simple), f)
    }
}
