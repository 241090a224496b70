//! Further data whose type is known when the program runs.
ghost use Rattle.std.specs.Prelude.{◌≡◌, ◌↔◌, IsOk, IfOk, Some};
ghost use Rattle.dns_text.specs.Document.{document_text};
ghost use Rattle.dns_text.specs.Document.Layout.{Simple};
ghost use Rattle.dns_fields_more.specs.Forms.{IsFurtherData};
ghost use Rattle.dns_name.specs.Unknown.{UnknownData};
ghost use Rattle.dns_rdata_more.specs.Shown.{further_document};

use super::FurtherDataError;
use dns_fields_more::{is_further_data, show_further};
use dns_name::Rtype;
use dns_text::{DisplayKind, Formatter, ZonefileFmt};
use std::fmt;
use std::marker::Model;

/// Data of any further type: the octets of a row of its fields, every name in full.
///
/// A contract sees it as the number of its type and these octets.
#[derive(Debug, Drop)]
pub struct AnyFurtherData<'a> {
    rtype: Rtype,
    octets: &'a [u8],
}

impl<'a> Model for AnyFurtherData<'a> {
    ghost Value = { UnknownData };

    ghost view = { λ rdata. record { number = rdata.rtype; octets = rdata.octets.now } };

    ghost invariant = { λ rdata. IsFurtherData rdata.rtype rdata.octets.now };
}

impl<'a> AnyFurtherData<'a> {
    /// Returns the data of these octets. Fails exactly if they are no data of the type, and if it is no further one.
    pub fn from_octets(rtype: Rtype, octets: &'a [u8]) -> Result<Self, FurtherDataError>
        ensures ok { IfOk result (λ rdata. rdata ≡ record { number = rtype; octets = octets.now }) }
        ensures are { IsOk result ↔ IsFurtherData rtype octets.now }
    {
        if !is_further_data(rtype, octets) {
            return Err(FurtherDataError);
        }
        Ok(AnyFurtherData { rtype, octets })
    }
}

/// The tokens of the fields in a block. An error is one of the formatter, since the octets are data of the type.
impl ZonefileFmt for AnyFurtherData<'_> {
    ghost document = { λ rdata. further_document rdata.number rdata.octets };

    fn fmt<F: Formatter>(&self, formatter: &mut F) -> fmt::Result {
        show_further(self.rtype, self.octets, formatter)
    }
}

/// With one space between two fields.
impl fmt::Display for AnyFurtherData<'_> {
    ghost output = { λ rdata. Some (document_text Simple (further_document rdata.number rdata.octets)) };

    fn fmt<W: fmt::Write>(&self, f: &mut fmt::Formatter<W>) -> fmt::Result {
        fmt::Display::fmt(&self.display_zonefile(DisplayKind::Simple), f)
    }
}
