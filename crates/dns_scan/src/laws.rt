//! Laws of texts. Each function does nothing; what it ensures is the law.
ghost use Rattle.std.specs.Prelude.{List, ℕ, IsUtf8};
ghost use Rattle.std.specs.Str.{chars};
ghost use Rattle.dns_label.specs.Octets.{AreOctets};
ghost use Rattle.dns_scan.specs.Base.{encoded, Decodes, DecodesOnly};
ghost use Rattle.dns_scan.specs.Converted.{IsConverted, Deciphers, DeciphersEntry};
ghost use Rattle.dns_scan.specs.StringText.{SpellsOnly, plain_text, between_quotes, unquoted_text};
ghost use Rattle.dns_scan.specs.Symbols.{HasMarked};
ghost use Rattle.dns_scan.specs.Token.{Token, IsEntry, HasText};
ghost use Rattle.dns_scan.specs.declared.encoding.base.Base.{Base};
ghost use Rattle.dns_scan.specs.declared.symbols.entry_symbol.EntrySymbol.{EntrySymbol};

/// The plain text of a string, its unquoted text, and the text between the quotes of its quoted text spell the string,
/// and no other: what `CharStr::from_str` returns for them is the string.
pub fn texts_read_back()
    ensures plain { (string : List ℕ) → AreOctets string → SpellsOnly (plain_text string) string }
    ensures quoted { (string : List ℕ) → AreOctets string → SpellsOnly (between_quotes string) string }
    ensures unquoted { (string : List ℕ) → AreOctets string → SpellsOnly (unquoted_text string) string }
{}

/// The text of octets in base 16, 32 or 64 decodes to these octets, and to no others: `decode` returns what
/// `encode_string` was given.
pub fn text_decodes_back()
    ensures { (base : Base) (octets : List ℕ) → AreOctets octets → DecodesOnly base (chars (encoded base octets)) octets }
{}

/// In base 16, 32 or 64 a token's symbols convert to the octets that its text decodes to, and the other way round:
/// `Scanner::convert_token` returns what `decode` returns, and neither returns any other octets.
pub fn tokens_convert_as_texts_decode()
    ensures converted { (base : Base) (token : Token) (octets : List ℕ) → IsConverted (Deciphers base) octets token → DecodesOnly base (chars token.text) octets }
    ensures decoded { (base : Base) (token : Token) (octets : List ℕ) → IsUtf8 token.text → Decodes base (chars token.text) octets → IsConverted (Deciphers base) octets token }
{}

/// In base 16, 32 or 64 an entry's symbols convert to the octets that its tokens' texts, joined, decode to, and the
/// other way round: `Scanner::convert_entry` returns what `decode` returns for the whole text.
pub fn entries_convert_as_texts_decode()
    ensures converted { (base : Base) (tokens : List Token) (symbols : List EntrySymbol) (octets text : List ℕ) → IsEntry HasMarked tokens symbols
        → DeciphersEntry base symbols octets → IsEntry HasText tokens text → DecodesOnly base (chars text) octets }
    ensures decoded { (base : Base) (tokens : List Token) (octets text : List ℕ) → IsEntry HasText tokens text → IsUtf8 text → Decodes base (chars text) octets
        → (symbols : List EntrySymbol) × IsEntry HasMarked tokens symbols × DeciphersEntry base symbols octets }
{}
