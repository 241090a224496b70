//! Parsing and skipping questions.
ghost use Rattle.std.specs.Prelude.{◌≡◌, ◌↔◌, ◌⊎◌, ℕ, List, IfOk, IfErr, OnOk, OnErr};
ghost use Rattle.dns_label.specs.Spelled.{DecodesName};
ghost use Rattle.dns_wire.specs.Cut.{IsCut};
ghost use Rattle.dns_wire.specs.Skip.{Skips};
ghost use Rattle.dns_octets.specs.declared.error.ParseError.TheVariants.{ShortInput};
ghost use Rattle.dns_octets.specs.Parser.{octets_of, place_of};
ghost use Rattle.dns_header.specs.Question as spec;
ghost use Rattle.dns_header.specs.Question.{ReadsQuestion, SkipsQuestion, EndsInQuestion};

use super::Question;
use dns_name::{Class, ParseError, ParsedName, Parser, Rtype};

impl<'a> Question<ParsedName<&'a [u8]>> {
    ghost use Rattle.dns_name.specs.ParsedName.{labels_of};
    ghost use Rattle.dns_header.specs.QuestionParts.{question_of};

    /// Parses the question at the parser's place, and moves the parser after it. Fails if no question is there, and
    /// with `ShortInput` exactly if the message ends too early for it. The parser then stays where it is.
    pub fn parse(parser: &mut Parser<'a>) -> Result<Self, ParseError>
        ensures ok { IfOk result (λ question. ReadsQuestion (octets_of parser.old) (place_of parser.old)
            (question_of labels_of question) (place_of parser.new)) }
        ensures no_question { OnErr result ((question : spec.Question) (next : ℕ)
            → ReadsQuestion (octets_of parser.old) (place_of parser.old) question next → ⊥) }
        ensures short { IfErr result (λ error. (error ≡ ShortInput) ↔ (IsCut (octets_of parser.old) 255 254 (place_of parser.old)
            ⊎ ((name : List (List ℕ)) × EndsInQuestion (octets_of parser.old)
            (DecodesName (octets_of parser.old) (place_of parser.old) name)))) }
        ensures same { octets_of parser.new ≡ octets_of parser.old }
        ensures err { OnErr result (parser.new ≡ parser.old) }
    {
        let mut ahead = *parser;
        let qname = ParsedName::parse(&mut ahead)?;
        let qtype = Rtype::from_int(ahead.parse_u16_be()?);
        let qclass = Class::from_int(ahead.parse_u16_be()?);
        *parser = ahead;
        Ok(Question::new(qname, qtype, qclass))
    }
}

impl Question<()> {
    /// Skips the question at the parser's place, and follows no pointer. It stops where `parse` does if a question is
    /// parsed there. Fails if there is nothing of this form, and with `ShortInput` exactly if the message ends too
    /// early for it. The parser then stays where it is.
    pub fn skip(parser: &mut Parser<'_>) -> Result<(), ParseError>
        ensures ok { OnOk result (SkipsQuestion (octets_of parser.old) (place_of parser.old) (place_of parser.new)) }
        ensures no_question { OnErr result ((next : ℕ) → SkipsQuestion (octets_of parser.old) (place_of parser.old) next → ⊥) }
        ensures short { IfErr result (λ error. (error ≡ ShortInput) ↔ (IsCut (octets_of parser.old) 0 254 (place_of parser.old)
            ⊎ EndsInQuestion (octets_of parser.old) (Skips (octets_of parser.old) 254 (place_of parser.old)))) }
        ensures same { octets_of parser.new ≡ octets_of parser.old }
        ensures err { OnErr result (parser.new ≡ parser.old) }
    {
        let mut ahead = *parser;
        ParsedName::skip(&mut ahead)?;
        ahead.advance(4)?;
        *parser = ahead;
        Ok(())
    }
}
