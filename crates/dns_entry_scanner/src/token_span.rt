//! The places of tokens in a text.
ghost use Rattle.std.specs.Prelude.{◌≡◌, false};

/// The place of a token in a text. The quotes of a quoted token are not part of it.
#[derive(Clone, Copy, Debug)]
pub struct TokenSpan {
    pub(crate) start: usize,
    pub(crate) len: usize,
    pub(crate) quoted: bool,
    pub(crate) has_escape: bool,
}

impl TokenSpan {
    ghost use Rattle.dns_entry_scanner.specs.TokenSpan.{is_marked, is_quoted, len_of, start_of, token_in};

    /// Returns the place of the token's first octet in the text.
    pub fn start(&self) -> usize
        ensures { result ≡ start_of self.now }
    {
        self.start
    }

    /// Returns the length of the token in octets. A quoted token may be empty.
    pub fn len(&self) -> usize
        ensures { result ≡ len_of self.now }
    {
        self.len
    }

    /// Returns whether the token is quoted.
    pub fn is_quoted(&self) -> bool
        ensures { result ≡ is_quoted self.now }
    {
        self.quoted
    }

    /// Returns whether the token has a backslash.
    pub fn has_escape(&self) -> bool
        ensures { result ≡ is_marked self.now }
    {
        self.has_escape
    }

    /// Returns the place of a word without a backslash.
    #[inline(always)]
    pub(crate) fn word(start: usize, len: usize) -> Self
        ensures { result ≡ record { start = start; len = len; quoted = false; has_escape = false } }
    {
        TokenSpan {
            start,
            len,
            quoted: false,
            has_escape: false,
        }
    }

    /// Returns the same, built from its fields. A push then writes the fields alone; a copy of the whole would include
    /// the padding between them.
    #[inline(always)]
    pub(crate) fn by_fields(self) -> TokenSpan
        ensures { result ≡ self }
    {
        TokenSpan {
            start: self.start,
            len: self.len,
            quoted: self.quoted,
            has_escape: self.has_escape,
        }
    }

    /// Returns the token as it is written in the text that it was read from, without quotes.
    ///
    /// In a shorter text, the token ends where that text ends.
    pub fn text<'t>(&self, of: &'t [u8]) -> &'t [u8]
        ensures { result.now ≡ (token_in of.now self.now).text }
    {
        let behind = &of[self.start.min(of.len())..];
        &behind[..self.len.min(behind.len())]
    }
}
