//! Tokens of a row.
ghost use Rattle.std.specs.Prelude.{◌≡◌, ◌∷◌, ◌↔◌, List, ℕ, [], true, length, take, IsTrue, IfSome, IfNone};
ghost use Rattle.std.specs.List.{list_all};
ghost use Rattle.dns_label.specs.Symbol.{is_plain};
ghost use Rattle.dns_scan.specs.Token.{IsWord, marker};

use crate::spelled_octets::{are_plain, plain_word};

/// A token of a row.
#[derive(Clone, Copy, Debug)]
pub(crate) struct RowToken<'t> {
    /// The token as it is written, without quotes.
    pub(crate) text: &'t [u8],
    /// The whole text from the token's start on.
    pub(crate) from: &'t [u8],
    /// Whether it is quoted.
    pub(crate) quoted: bool,
    /// Whether it is known to have no backslash.
    pub(crate) bare: bool,
    ghost begins: { text.now ≡ take (length text.now) from.now },
    ghost plain: { bare ≡ true → list_all is_plain text.now ≡ true },
}

impl<'t> RowToken<'t> {
    ghost use Rattle.dns_entry_scanner.specs.RowToken.{token_of};

    /// Returns the token's text if the token is a word: unquoted, and without a backslash.
    pub(crate) fn word(self) -> Option<&'t str>
        ensures some { IfSome result (λ word. IsWord word.now (token_of self.entry)) }
        ensures none { IfNone result ((text : List ℕ) → IsWord text (token_of self.entry) → ⊥) }
    {
        if self.quoted || !self.is_plain() {
            return None;
        }
        Some(plain_word(self.text))
    }

    /// Returns whether the text has only printable characters other than the backslash. Each of them is a symbol that
    /// stands for itself.
    pub(crate) fn is_plain(self) -> bool
        ensures { result ≡ list_all is_plain self.entry.text.now }
    {
        self.bare || are_plain(self.text)
    }

    /// Returns whether the token is `\#`, the marker of unknown data (RFC 3597 5).
    pub(crate) fn is_marker(self) -> bool
        ensures { IsTrue result ↔ (token_of self.entry ≡ marker) }
    {
        if self.quoted {
            return false;
        }
        is_marker_text(self.text)
    }
}

/// Returns whether this is the text of the marker.
fn is_marker_text(text: &[u8]) -> bool
    ensures { IsTrue result ↔ (text.now ≡ 92 ∷ 35 ∷ []) }
{
    matches!(text, [b'\\', b'#'])
}
