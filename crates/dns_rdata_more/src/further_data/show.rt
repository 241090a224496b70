//! Further data as text.
ghost use Rattle.std.specs.Prelude.{Some};
ghost use Rattle.dns_text.specs.Document.{document_text};
ghost use Rattle.dns_text.specs.Document.Layout.{Simple};
ghost use Rattle.dns_rdata_more.specs.Shown.{further_document};

use super::FurtherData;
use dns_fields_more::show_further;
use dns_name::{Octets, Rtype};
use dns_rr_data::DataType;
use dns_text::{DisplayKind, Formatter, ZonefileFmt};
use std::fmt;

/// The tokens of the fields in a block. An error is one of the formatter, since the octets are data of the type.
impl<T: DataType, Octs: Octets> ZonefileFmt for FurtherData<T, Octs> {
    ghost document = { λ rdata. further_document T.number rdata };

    fn fmt<F: Formatter>(&self, formatter: &mut F) -> fmt::Result {
        show_further(
            Rtype::from_int(T::number()),
            self.octets.octets(),
            formatter,
        )
    }
}

/// With one space between two fields.
impl<T: DataType, Octs: Octets> fmt::Display for FurtherData<T, Octs> {
    ghost output = { λ rdata. Some (document_text Simple (further_document T.number rdata)) };

    fn fmt<W: fmt::Write>(&self, f: &mut fmt::Formatter<W>) -> fmt::Result {
        fmt::Display::fmt(&self.display_zonefile(DisplayKind::Simple), f)
    }
}
