//! Building an OPT record in place (RFC 6891 6.1).
ghost use Rattle.std.specs.Prelude.{◌≡◌};
ghost use Rattle.dns_builder.specs.OptSeen.{target_of};

mod append;
mod fields;
mod move_down;
mod option;
mod replace;

use dns_header::{Header, OptHeader};
use dns_name::{AppendError, Composer};

/// A builder of an OPT record, the last record of a message.
///
/// Its calls change only the OPT record and the response code of the message. After a call has failed, the record is
/// not added to the message.
#[derive(Debug, Drop)]
pub struct OptBuilder<Target: Composer> {
    pub(crate) target: Target,
    /// How many octets of options are at the end of the target.
    rdlen: u16,
    /// How many octets of replaced options are before them.
    replaced: usize,
    /// The header of the message with the record.
    header: Header,
    fields: OptHeader,
    /// The error of the first call that failed.
    refused: Option<AppendError>,
}

impl<Target: Composer> OptBuilder<Target> {
    /// Returns a builder over a target, without a record yet.
    pub(crate) fn over(target: Target) -> Self
        ensures { target_of result ≡ target }
    {
        OptBuilder {
            target,
            rdlen: 0,
            replaced: 0,
            header: Header::new(),
            fields: OptHeader::new(),
            refused: None,
        }
    }
}
