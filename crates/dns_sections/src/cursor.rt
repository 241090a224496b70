//! A place in a section, and how many items are left: the common part of the cursors over sections.
ghost use Rattle.std.specs.Prelude.{◌≡◌, Ok, Err, IfOk, MatchResult};
ghost use Rattle.dns_octets.specs.Parser.{octets_of, place_of};
ghost use Rattle.dns_sections.specs.Cursor.{Gives, PassesAll};
ghost use Rattle.dns_sections.specs.Seen.{cursor_of};

use crate::item::Item;
use dns_name::{ParseError, Parser};

/// A place in a section.
#[derive(Clone, Copy, Debug)]
pub(crate) struct ItemCursor<'a> {
    /// At the start of the next item, if one is left.
    parser: Parser<'a>,
    /// How many items are left, or the error of the item that did not parse.
    left: Result<u16, ParseError>,
}

impl<'a> ItemCursor<'a> {
    /// Returns a cursor at the parser's place with `left` items.
    pub(crate) fn new(parser: Parser<'a>, left: u16) -> Self
        ensures { cursor_of result ≡ record { message = octets_of parser.entry; place = place_of parser.entry; left = Ok left } }
    {
        ItemCursor {
            parser,
            left: Ok(left),
        }
    }

    /// Returns the place: how many octets of the message come before it.
    pub(crate) fn pos(&self) -> usize
        ensures { result ≡ (cursor_of self.now).place }
    {
        self.parser.pos()
    }

    /// Returns the octets of the message.
    pub(crate) fn message(&self) -> &'a [u8]
        ensures { result.now ≡ (cursor_of self.now).message }
    {
        self.parser.as_slice()
    }

    /// Returns how many items are left, or the error of the item that did not parse.
    pub(crate) fn left(&self) -> Result<u16, ParseError>
        ensures { result ≡ (cursor_of self.now).left }
    {
        self.left
    }

    /// Parses the next item. If it does not parse, returns the error once, and nothing after that.
    pub(crate) fn next_item<I: Item<'a>>(&mut self) -> Option<Result<I, ParseError>>
        ensures { Gives I.reads I.is_none I.is_cut (cursor_of self.old) result (cursor_of self.new) }
    {
        let Ok(left) = self.left else { return None };
        if left == 0 {
            return None;
        }
        let item = I::parse(&mut self.parser);
        self.left = match &item {
            Ok(_) => Ok(left - 1),
            Err(error) => Err(*error),
        };
        Some(item)
    }

    /// Skips the items that are left, and returns a parser after them. Fails with the error of the first that cannot be
    /// skipped, or of the one that did not parse before.
    pub(crate) fn pass_all<I: Item<'a>>(self) -> Result<Parser<'a>, ParseError>
        ensures passes { MatchResult result (λ parser. PassesAll I.skips I.skip_is_cut (cursor_of self.entry) (Ok (place_of parser)))
            (λ error. PassesAll I.skips I.skip_is_cut (cursor_of self.entry) (Err error)) }
        ensures same { IfOk result (λ parser. octets_of parser ≡ (cursor_of self.entry).message) }
    {
        let mut parser = self.parser;
        let left = self.left?;
        for _ in 0..left {
            I::skip(&mut parser)?;
        }
        Ok(parser)
    }
}
