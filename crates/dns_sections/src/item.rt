//! The items of a section: questions or records.
ghost use Rattle.std.specs.Prelude.{◌≡◌, ◌↔◌, ℕ, List, IfOk, IfErr, OnOk, OnErr};
ghost use Rattle.dns_octets.specs.Parser.{octets_of, place_of};
ghost use Rattle.dns_sections.specs.Cursor.{IsRefusal};

use dns_header::{ParsedRecord, Question};
use dns_name::{ParseError, ParsedName, Parser};

/// An item of a section, which can be parsed, or skipped without following a pointer.
pub(crate) trait Item<'a>: Sized {
    /// The message has this item at a place, and the last argument is the place after it.
    ghost reads: { List ℕ → ℕ → Self → ℕ → Type 0 };

    /// The message has no item at the place.
    ghost is_none: { List ℕ → ℕ → Type 0 };

    /// The message ends too early for an item.
    ghost is_cut: { List ℕ → ℕ → Type 0 };

    /// An item at a place is skipped, up to the place after it.
    ghost skips: { List ℕ → ℕ → ℕ → Type 0 };

    /// The message ends too early for an item that is skipped.
    ghost skip_is_cut: { List ℕ → ℕ → Type 0 };

    /// Parses the item at the parser's place, and moves the parser after it. A call that fails leaves the parser where
    /// it is.
    fn parse(parser: &mut Parser<'a>) -> Result<Self, ParseError>
        ensures ok { IfOk result (λ item. reads (octets_of parser.old) (place_of parser.old) item (place_of parser.new)) }
        ensures err { IfErr result (IsRefusal (is_none (octets_of parser.old) (place_of parser.old))
            (is_cut (octets_of parser.old) (place_of parser.old))) }
        ensures same { octets_of parser.new ≡ octets_of parser.old }
        ensures stays { OnErr result (parser.new ≡ parser.old) };

    /// Skips the item at the parser's place, and follows no pointer. A call that fails leaves the parser where it is.
    fn skip(parser: &mut Parser<'a>) -> Result<(), ParseError>
        ensures ok { OnOk result (skips (octets_of parser.old) (place_of parser.old) (place_of parser.new)) }
        ensures err { IfErr result (IsRefusal ((next : ℕ) → skips (octets_of parser.old) (place_of parser.old) next → ⊥)
            (skip_is_cut (octets_of parser.old) (place_of parser.old))) }
        ensures same { octets_of parser.new ≡ octets_of parser.old }
        ensures stays { OnErr result (parser.new ≡ parser.old) };
}

impl<'a> Item<'a> for Question<ParsedName<&'a [u8]>> {
    ghost use Rattle.dns_name.specs.ParsedName.{labels_of};
    ghost use Rattle.dns_header.specs.Question.{ReadsQuestion, SkipsQuestion};
    ghost use Rattle.dns_header.specs.QuestionParts.{question_of};
    ghost use Rattle.dns_sections.specs.Questions.{NoQuestion, QuestionIsCut, QuestionSkipIsCut};

    ghost reads = { λ message place question next. ReadsQuestion message place (question_of labels_of question) next };

    ghost is_none = { NoQuestion };

    ghost is_cut = { QuestionIsCut };

    ghost skips = { SkipsQuestion };

    ghost skip_is_cut = { QuestionSkipIsCut };

    fn parse(parser: &mut Parser<'a>) -> Result<Self, ParseError> {
        Question::parse(parser)
    }

    fn skip(parser: &mut Parser<'a>) -> Result<(), ParseError> {
        Question::skip(parser)
    }
}

impl<'a> Item<'a> for ParsedRecord<'a> {
    ghost use Rattle.dns_header.specs.Head.{NoWhole, WholeIsCut};
    ghost use Rattle.dns_header.specs.ParsedRecord.{HoldsRecord};
    ghost use Rattle.dns_header.specs.SkipsRecord.{SkipsRecord, SkipIsCut};

    ghost reads = { HoldsRecord };

    ghost is_none = { NoWhole };

    ghost is_cut = { WholeIsCut };

    ghost skips = { SkipsRecord };

    ghost skip_is_cut = { SkipIsCut };

    fn parse(parser: &mut Parser<'a>) -> Result<Self, ParseError> {
        ParsedRecord::parse(parser)
    }

    fn skip(parser: &mut Parser<'a>) -> Result<(), ParseError> {
        ParsedRecord::skip(parser)
    }
}
