//! The symbols that text writes octets in.
ghost use Rattle.std.specs.Prelude.{◌≡◌, ◌+◌, ◌≤◌, ◌<◌, ◌⊎◌, ◌++◌, ◌∷◌, ◌↔◌, List, ℕ, Some, IsTrue, IsOk, IfSome, IfNone, IfOk, IfErr, OnErr};
ghost use Rattle.std.specs.Iterator.{MakesProgress, Yields};
ghost use Rattle.dns_label.specs.Symbol.{IsPrintable, IsNoDigit, IsSymbol, spelled, octet, three_digits};
ghost use Rattle.dns_label.specs.ReadSymbol.{BeginsWithSymbol, BeginsWithDigit, IsDigitFault, IsEscapeFault};
ghost use Rattle.dns_label.specs.Taken.{RulesOut};

mod show;

use thiserror::Error;

/// Why characters are no symbol.
#[derive(Clone, Copy, Debug, PartialEq, Eq, Error)]
pub enum SymbolCharsError {
    /// A character outside 0x20 to 0x7E.
    #[error("non-printable character")]
    BadChar,
    /// A backslash before a character outside 0x20 to 0x7E, or before digits that are not three or give more than 255.
    #[error("illegal escape sequence")]
    BadEscape,
    /// The characters end after a backslash, or before the third digit after it.
    #[error("unexpected end of input")]
    ShortInput,
}

/// No text has this symbol, so that it stands for no octet.
#[derive(Clone, Copy, Debug, PartialEq, Eq, Error)]
#[error("bad symbol")]
pub struct BadSymbol;

/// A symbol of text, which stands for one octet (RFC 1035, section 5.1).
#[derive(Clone, Copy, Debug, PartialEq, Eq)]
pub enum Symbol {
    /// A character that stands for itself.
    Char(char),
    /// A backslash before a character, which stands for that character without any other meaning.
    SimpleEscape(u8),
    /// A backslash before the three decimal digits of an octet.
    DecimalEscape(u8),
}

impl Symbol {
    ghost use Rattle.dns_label.specs.ReadSymbol.{ReadsSymbol, IsSymbolFault};
    ghost use Rattle.dns_label.specs.Digit.{IsCharacter, IsDigitTo};

    /// Reads the next symbol off the characters and takes no more of them. Returns None if no character is left.
    ///
    /// Fails with `BadChar` at a character outside 0x20 to 0x7E, with `BadEscape` at a backslash before such a
    /// character or before digits that are not three or give more than 255, and with `ShortInput` if the characters end
    /// too early after a backslash.
    pub fn from_chars<C: Iterator<Item = char>>(
        chars: &mut C,
    ) -> Result<Option<Symbol>, SymbolCharsError>
        requires { C.can_next chars.old }
        ensures symbol { ReadsSymbol C.next_gives chars.old result chars.new }
        ensures why { IfErr result (IsSymbolFault C.next_gives chars.old) }
        ensures progress { IfOk result (λ found. MakesProgress C.can_next C.remaining chars.old found chars.new) }
    {
        match chars.next() {
            None => Ok(None),
            Some('\\') => Ok(Some(read_escape(chars)?)),
            Some(first @ ' '..='~') => Ok(Some(Symbol::Char(first))),
            Some(_) => Err(SymbolCharsError::BadChar),
        }
    }

    /// Returns the octet that the symbol stands for.
    ///
    /// Fails exactly if no text has this symbol: a character outside 0x20 to 0x7E, escaped or not, a plain backslash,
    /// or a digit that is escaped by itself.
    pub fn into_octet(self) -> Result<u8, BadSymbol>
        ensures octet { IfOk result (λ value. value ≡ octet self) }
        ensures symbol { IsOk result ↔ IsSymbol self }
    {
        match self {
            Symbol::Char('\\') => Err(BadSymbol),
            Symbol::Char(c @ ' '..='~') => Ok(c as u8),
            Symbol::SimpleEscape(c) if is_escapable(c) => Ok(c),
            Symbol::Char(_) | Symbol::SimpleEscape(_) => Err(BadSymbol),
            Symbol::DecimalEscape(octet) => Ok(octet),
        }
    }

    /// Returns the octet that the symbol stands for, if it is printable.
    ///
    /// Fails exactly if no text has this symbol, or if the octet is outside 0x20 to 0x7E.
    pub fn into_ascii(self) -> Result<u8, BadSymbol>
        ensures octet { IfOk result (λ value. value ≡ octet self) }
        ensures printable { IsOk result ↔ (IsSymbol self × IsPrintable (octet self)) }
    {
        match self.into_octet()? {
            octet @ b' '..=b'~' => Ok(octet),
            _ => Err(BadSymbol),
        }
    }

    /// Returns the character that the symbol is, plain or escaped.
    ///
    /// Fails exactly if no text has this symbol, or if it is a number, which is no character.
    pub fn into_char(self) -> Result<char, BadSymbol>
        ensures char { IfOk result (λ value. value ≡ octet self) }
        ensures symbol { IsOk result ↔ (IsSymbol self × IsCharacter self) }
    {
        match self {
            Symbol::DecimalEscape(_) => Err(BadSymbol),
            Symbol::Char(_) | Symbol::SimpleEscape(_) => Ok(char::from(self.into_octet()?)),
        }
    }

    /// Returns the value of a plain character as a digit of this base, 2 to 36. After the 9 come letters of either
    /// case.
    ///
    /// Fails if it is no such digit.
    pub fn into_digit(self, base: u32) -> Result<u32, BadSymbol>
        requires least { 2 ≤ base }
        requires most { base ≤ 36 }
        ensures value { IfOk result (λ value. IsDigitTo base self value) }
        ensures err { OnErr result ((value : ℕ) → IsDigitTo base self value → ⊥) }
    {
        let Symbol::Char(c) = self else {
            return Err(BadSymbol);
        };
        c.to_digit(base).ok_or(BadSymbol)
    }

    /// Splits a symbol off the front of the text. Returns the symbol and the text after it, or None if the text begins
    /// with no symbol: at its end, at an octet outside 0x20 to 0x7E, at a backslash before one, and at a backslash
    /// before digits that are not three or give more than 255.
    pub fn split_from(text: &[u8]) -> Option<(Symbol, &[u8])>
        ensures found { IfSome result (λ found. IsSymbol found.0 × (text.now ≡ spelled found.0 ++ found.1.now)) }
        ensures none { IfNone result ((symbol : Symbol) (rest : List ℕ) → IsSymbol symbol → text.now ≡ spelled symbol ++ rest → ⊥) }
    {
        let (&first, behind) = text.split_first()?;
        match first {
            b'\\' => split_escape(behind),
            b' '..=b'~' => Some((Symbol::Char(char::from(first)), behind)),
            _ => None,
        }
    }
}

/// Returns whether a backslash may escape the octet: a printable character that is no digit.
fn is_escapable(octet: u8) -> bool
    ensures { IsTrue result ↔ (IsPrintable octet × IsNoDigit octet) }
{
    matches!(octet, b' '..=b'/' | b':'..=b'~')
}

/// Reads the rest of a symbol off the characters, after its backslash.
fn read_escape<C: Iterator<Item = char>>(chars: &mut C) -> Result<Symbol, SymbolCharsError>
    requires { C.can_next chars.old }
    ensures found { IfOk result (λ symbol. IsSymbol symbol × ((behind : List ℕ) × (spelled symbol ≡ 92 ∷ behind) × Yields C.next_gives chars.old behind chars.new)) }
    ensures err { OnErr result (RulesOut C.next_gives chars.old (λ text. BeginsWithSymbol (92 ∷ text))) }
    ensures why { IfErr result (IsEscapeFault C.next_gives chars.old) }
    ensures progress { IfOk result (λ symbol. MakesProgress C.can_next C.remaining chars.old (Some symbol) chars.new) }
{
    let Some(first) = chars.next() else {
        return Err(SymbolCharsError::ShortInput);
    };
    match first {
        '0'..='9' => {
            let hundreds = first as u16 - 48;
            let tens = read_digit(chars)?;
            let ones = read_digit(chars)?;
            match u8::try_from(100 * hundreds + 10 * tens + ones) {
                Ok(number) => Ok(Symbol::DecimalEscape(number)),
                Err(_) => Err(SymbolCharsError::BadEscape),
            }
        }
        ' '..='~' => Ok(Symbol::SimpleEscape(first as u8)),
        _ => Err(SymbolCharsError::BadEscape),
    }
}

/// Reads the next character, a decimal digit, and returns its value.
fn read_digit<C: Iterator<Item = char>>(chars: &mut C) -> Result<u16, SymbolCharsError>
    requires { C.can_next chars.old }
    ensures found { IfOk result (λ value. (value < 10) × C.next_gives chars.old (Some (48 + value)) chars.new) }
    ensures err { OnErr result (RulesOut C.next_gives chars.old BeginsWithDigit) }
    ensures why { IfErr result (IsDigitFault C.next_gives chars.old) }
    ensures progress { IfOk result (λ value. MakesProgress C.can_next C.remaining chars.old (Some value) chars.new) }
{
    match chars.next() {
        Some(digit @ '0'..='9') => Ok(digit as u16 - 48),
        Some(_) => Err(SymbolCharsError::BadEscape),
        None => Err(SymbolCharsError::ShortInput),
    }
}

/// Splits off the rest of a symbol, after its backslash.
fn split_escape(text: &[u8]) -> Option<(Symbol, &[u8])>
    ensures found { IfSome result (λ found. IsSymbol found.0 × (92 ∷ text.now ≡ spelled found.0 ++ found.1.now)) }
    ensures none { IfNone result ((symbol : Symbol) (rest : List ℕ) → IsSymbol symbol → 92 ∷ text.now ≡ spelled symbol ++ rest → ⊥) }
{
    let (&first, behind) = text.split_first()?;
    match first {
        b'0'..=b'9' => {
            let (number, rest) = split_decimal(text)?;
            Some((Symbol::DecimalEscape(number), rest))
        }
        b' '..=b'~' => Some((Symbol::SimpleEscape(first), behind)),
        _ => None,
    }
}

/// Splits off the number of an octet in three digits.
fn split_decimal(text: &[u8]) -> Option<(u8, &[u8])>
    ensures found { IfSome result (λ found. text.now ≡ three_digits found.0 ++ found.1.now) }
    ensures none { IfNone result ((n : ℕ) (rest : List ℕ) → n < 256 → text.now ≡ three_digits n ++ rest → ⊥) }
{
    let (digits, rest) = text.split_at_checked(3)?;
    let hundreds = digit(digits[0])?;
    let tens = digit(digits[1])?;
    let ones = digit(digits[2])?;
    let number = u16::from(hundreds) * 100 + u16::from(tens) * 10 + u16::from(ones);
    Some((u8::try_from(number).ok()?, rest))
}

/// Returns the value of a decimal digit, or None.
fn digit(octet: u8) -> Option<u8>
    ensures value { IfSome result (λ value. (value < 10) × (octet ≡ 48 + value)) }
    ensures none { IfNone result ((octet < 48) ⊎ (57 < octet)) }
{
    match octet {
        b'0'..=b'9' => Some(octet - b'0'),
        _ => None,
    }
}
