//! Skipping records.
ghost use Rattle.std.specs.Prelude.{◌≡◌, ◌↔◌, ℕ, IfErr, OnOk, OnErr};
ghost use Rattle.dns_octets.specs.declared.error.ParseError.TheVariants.{ShortInput};
ghost use Rattle.dns_octets.specs.Parser.{octets_of, place_of};
ghost use Rattle.dns_header.specs.SkipsRecord.{SkipsRecord, SkipIsCut};

use super::ParsedRecord;
use dns_name::{ParseError, ParsedName, Parser};

impl<'a> ParsedRecord<'a> {
    /// Skips the record at the parser's place, and follows no pointer. It stops where `parse` does if a record is
    /// parsed there.
    ///
    /// Fails if there is nothing of this form, and with `ShortInput` exactly if the message ends too early for it. The
    /// parser then stays where it is (RFC 1035 4.1.3).
    pub fn skip(parser: &mut Parser<'a>) -> Result<(), ParseError>
        ensures ok { OnOk result (SkipsRecord (octets_of parser.old) (place_of parser.old) (place_of parser.new)) }
        ensures err { OnErr result ((next : ℕ) → SkipsRecord (octets_of parser.old) (place_of parser.old) next → ⊥) }
        ensures short { IfErr result (λ error. (error ≡ ShortInput) ↔ SkipIsCut (octets_of parser.old) (place_of parser.old)) }
        ensures same { octets_of parser.new ≡ octets_of parser.old }
        ensures stays { OnErr result (parser.new ≡ parser.old) }
    {
        let mut ahead = *parser;
        ParsedName::skip(&mut ahead)?;
        ahead.advance(8)?;
        let len = ahead.parse_u16_be()?;
        ahead.advance(usize::from(len))?;
        *parser = ahead;
        Ok(())
    }
}
