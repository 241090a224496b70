//! How octets are written as symbols, and symbols as text.
ghost use Rattle.std.specs.Prelude.{◌≡◌, ◌↔◌, Some, IsTrue};
ghost use Rattle.dns_label.specs.Shown.{shown, bare_symbol, word_symbol, quoted_symbol, plain_symbol, IsWordSymbol};
ghost use Rattle.dns_label.specs.Printed.{printed_symbol};

use super::Symbol;
use std::fmt;

impl Symbol {
    /// Returns the symbol that writes an octet in a word of text. A space, `"`, `(`, `)`, `;` and a backslash are
    /// escaped by a backslash, octets outside 0x20 to 0x7E are written as three digits, and the others as themselves.
    pub fn from_octet(octet: u8) -> Self
        ensures { result ≡ word_symbol octet }
    {
        match octet {
            b' ' | b'"' | b'(' | b')' | b';' | b'\\' => Symbol::SimpleEscape(octet),
            _ => bare(octet),
        }
    }

    /// Returns the symbol that writes an octet between quotes. `"` and a backslash are escaped by a backslash, octets
    /// outside 0x20 to 0x7E are written as three digits, and the others as themselves.
    pub fn quoted_from_octet(octet: u8) -> Self
        ensures { result ≡ quoted_symbol octet }
    {
        match octet {
            b'"' | b'\\' => Symbol::SimpleEscape(octet),
            _ => bare(octet),
        }
    }

    /// Returns the symbol that writes an octet in plain text. A backslash is escaped by a backslash, octets outside
    /// 0x20 to 0x7E are written as three digits, and the others as themselves.
    pub fn display_from_octet(octet: u8) -> Self
        ensures { result ≡ plain_symbol octet }
    {
        match octet {
            b'\\' => Symbol::SimpleEscape(octet),
            _ => bare(octet),
        }
    }

    /// Returns the symbol that writes an octet of a label. A space, `"`, `$`, `(`, `)`, a dot, `;` and a backslash are
    /// escaped by a backslash, octets outside 0x20 to 0x7E are written as three digits, and the others as themselves.
    pub(crate) fn label_from_octet(octet: u8) -> Self
        ensures { result ≡ printed_symbol octet }
    {
        match octet {
            b' ' | b'"' | b'$' | b'(' | b')' | b'.' | b';' | b'\\' => Symbol::SimpleEscape(octet),
            _ => bare(octet),
        }
    }

    /// Returns whether a word may have the symbol: white space, `"`, `(`, `)` and `;` have to be escaped in a word.
    pub fn is_word_char(self) -> bool
        ensures { IsTrue result ↔ IsWordSymbol self }
    {
        match self {
            Symbol::Char(c) => !matches!(c, ' ' | '\t' | '\r' | '\n' | '"' | '(' | ')' | ';'),
            Symbol::SimpleEscape(_) | Symbol::DecimalEscape(_) => true,
        }
    }
}

/// Returns an octet as itself, or as its number if it is not printable.
fn bare(octet: u8) -> Symbol
    ensures { result ≡ bare_symbol octet }
{
    match octet {
        b' '..=b'~' => Symbol::Char(char::from(octet)),
        _ => Symbol::DecimalEscape(octet),
    }
}

impl fmt::Display for Symbol {
    ghost output = { λ symbol. Some (shown symbol) };

    fn fmt<W: fmt::Write>(&self, f: &mut fmt::Formatter<W>) -> fmt::Result {
        match *self {
            Symbol::Char(c) => write!(f, "{c}"),
            Symbol::SimpleEscape(octet) => {
                let c = char::from(octet);
                write!(f, "\\{c}")
            }
            Symbol::DecimalEscape(octet) => {
                let hundreds = char::from(b'0' + octet / 100);
                let tens = char::from(b'0' + octet / 10 % 10);
                let ones = char::from(b'0' + octet % 10);
                write!(f, "\\{hundreds}{tens}{ones}")
            }
        }
    }
}
