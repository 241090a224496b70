//! Data of any type as text.
ghost use Rattle.std.specs.Prelude.{Some, OnOk};
ghost use Rattle.dns_rdata.specs.Data.{document_of};
ghost use Rattle.dns_rdata.specs.ZoneData.{data_of};
ghost use Rattle.dns_text.specs.Document.{document_text};
ghost use Rattle.dns_text.specs.Document.Layout.{Simple};
ghost use Rattle.dns_text.specs.Writing.{Adds};

use super::ZoneRecordData;
use super::visit::Visit;
use crate::rows::{DataType, show_row};
use dns_name::{Octets, ToName, UnknownRecordData};
use dns_rr_data::TypedData;
use dns_text::{DisplayKind, Formatter, ZonefileFmt};
use std::fmt;

/// The tokens of the fields in a block, or the opaque octets (RFC 3597 5).
impl<Octs: Octets, N: ToName> ZonefileFmt for ZoneRecordData<Octs, N> {
    ghost document = { λ rdata. document_of (data_of rdata) };

    fn fmt<F: Formatter>(&self, formatter: &mut F) -> fmt::Result {
        self.visit::<Shown, F>(formatter)
    }
}

/// The document of the data written.
pub struct Shown;

impl<F: Formatter> Visit<F> for Shown {
    type Answer = fmt::Result;

    ghost answers = { λ old rdata result new. OnOk result (Adds F.writes old (document_of rdata) new) };

    fn fields<D: TypedData>(rdata: &D, formatter: &mut F) -> fmt::Result {
        show_row(D::Type::number(), rdata.typed_row(), formatter)
    }

    fn unknown<Octs: Octets>(rdata: &UnknownRecordData<Octs>, formatter: &mut F) -> fmt::Result {
        ZonefileFmt::fmt(rdata, formatter)
    }
}

/// With one space between two tokens.
impl<Octs: Octets, N: ToName> fmt::Display for ZoneRecordData<Octs, N> {
    ghost output = { λ rdata. Some (document_text Simple (document_of (data_of rdata))) };

    fn fmt<W: fmt::Write>(&self, f: &mut fmt::Formatter<W>) -> fmt::Result {
        fmt::Display::fmt(&self.display_zonefile(DisplayKind::Simple), f)
    }
}
