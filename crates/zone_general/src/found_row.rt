//! Rows that were found in a text.
ghost use Rattle.std.specs.Prelude.{◌≡◌, ◌<◌, length, slice_get, Some};
ghost use Rattle.dns_scan.specs.Token.{Token};

use dns_zonefile::TokenSpan;

/// A row with its tokens, as `read_row` found it in a text.
#[derive(Clone, Copy, Debug)]
pub struct FoundRow<'t> {
    pub text: &'t [u8],
    /// The place at which it begins.
    pub place: usize,
    /// The place after its line feed.
    pub next: usize,
    pub spans: &'t [TokenSpan],
    /// Whether it begins with white space.
    pub blank_led: bool,
}

impl<'t> FoundRow<'t> {
    ghost use Rattle.zone_general.specs.Seen.{IsFound, octets_in, tokens_in};

    /// Returns the octets of the row, with its line feed.
    pub fn octets(self) -> &'t [u8]
        requires { IsFound self }
        ensures { result.now ≡ octets_in self.entry }
    {
        &self.text[self.place..self.next]
    }

    /// Returns the text of the token at the index.
    pub fn token(self, index: usize) -> &'t [u8]
        requires { index < length self.spans.now }
        ensures { (token : Token) → slice_get (tokens_in self.entry) index ≡ Some token → result.now ≡ token.text }
    {
        self.spans[index].text(self.text)
    }
}
