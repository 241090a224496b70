//! The records of answers.
ghost use Rattle.std.specs.Prelude.{◌≡◌, ℕ, IfOk, OnErr};
ghost use Rattle.dns_octets.specs.Parser.{octets_of, place_of};
ghost use Rattle.dns_name.specs.ParsedName.{labels_of};
ghost use Rattle.dns_header.specs.Record.{with_labels};
ghost use Rattle.dns_message.specs.Held.{record_of};
ghost use Rattle.dns_message.specs.Record.{ReadsRecord};
ghost use Rattle.zone_records.specs.Record as spec;
ghost use Rattle.zone_records.specs.Records.{AreOctets};
ghost use Rattle.zone_records.specs.Typed.{seen_of};

use dns_message::ParsedRecord;
use dns_name::{ParseError, Parser};
use zone_records::record_list::MessageRecord;

/// Parses the record at the parser's place, and moves the parser after it. Its names may have pointers (RFC 1035
/// 4.1.4). Fails if no record is there.
pub(crate) fn parse_record<'a>(parser: &mut Parser<'a>) -> Result<MessageRecord<'a>, ParseError>
    requires { AreOctets (octets_of parser.old) }
    ensures ok { IfOk result (λ r. ReadsRecord (octets_of parser.old) (place_of parser.old) (record_of (seen_of (with_labels labels_of r)))
        (place_of parser.new)) }
    ensures same { octets_of parser.new ≡ octets_of parser.old }
    ensures err { OnErr result ((r : spec.Record) (next : ℕ) → ReadsRecord (octets_of parser.old) (place_of parser.old) r next → ⊥) }
{
    let found = ParsedRecord::parse(parser)?;
    found.into_any_record()
}
