//! The header of the messages that are sent.
ghost use Rattle.std.specs.Prelude.{◌≡◌};
ghost use Rattle.zone_core.specs.Asked.{asked_by};
ghost use Rattle.zone_send.specs.Sending.{header_front};

use dns_message::Header;
use dns_message::laws::header_is_its_fields;
use zone_core::Query;

/// Returns the header of each message without its counts: the query's ID and RD, with QR and AA set (RFC 5936 2.2.1).
pub(crate) fn header_of(query: &Query<'_>) -> Header
    ensures { result ≡ header_front (asked_by query.now) }
{
    let mut header = Header::new();
    header.set_id(query.id());
    header.set_qr(true);
    header.set_aa(true);
    header.set_rd(query.rd());
    // For the proof: the header's octets are its fields.
    header_is_its_fields(header);
    header
}
