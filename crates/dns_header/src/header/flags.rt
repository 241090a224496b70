//! The one-bit flags of a header (RFC 1035 4.1.1, RFC 4035 3.1.6, 3.2).
ghost use Rattle.std.specs.Prelude.{◌≡◌, Some};
ghost use Rattle.std.specs.List.{list_all};
ghost use Rattle.std.specs.Result.{result_ok};
ghost use Rattle.std.specs.Fmt.{DisplaysOnOk};
ghost use Rattle.dns_header.specs.FlagWords.{word_text};

use std::fmt;
use std::str::FromStr;
use thiserror::Error;

/// The one-bit flags of a header, except Z.
#[derive(Clone, Copy, Debug, Default, PartialEq, Eq, Hash)]
pub struct Flags {
    /// The message is a response.
    pub qr: bool,
    /// The responding server is an authority for the name.
    pub aa: bool,
    /// The message was truncated.
    pub tc: bool,
    /// The query asks for recursion.
    pub rd: bool,
    /// The server offers recursion.
    pub ra: bool,
    /// The server vouches that all data is authentic.
    pub ad: bool,
    /// The query accepts data that is not authenticated.
    pub cd: bool,
}

impl Flags {
    ghost use Rattle.dns_header.specs.Flags.{no_flags};

    /// Returns flags that are all clear.
    pub fn new() -> Self
        ensures { result ≡ no_flags }
    {
        Flags::default()
    }
}

/// Writes the names of the flags that are set, in upper case, with one space between each two.
impl fmt::Display for Flags {
    ghost use Rattle.dns_header.specs.Flags.{flags_text};

    ghost output = { λ flags. Some (flags_text flags) };

    fn fmt<W: fmt::Write>(&self, f: &mut fmt::Formatter<W>) -> fmt::Result {
        write_word(f, false, self.qr, "QR")?;
        let behind = self.qr;
        write_word(f, behind, self.aa, "AA")?;
        let behind = behind | self.aa;
        write_word(f, behind, self.tc, "TC")?;
        let behind = behind | self.tc;
        write_word(f, behind, self.rd, "RD")?;
        let behind = behind | self.rd;
        write_word(f, behind, self.ra, "RA")?;
        let behind = behind | self.ra;
        write_word(f, behind, self.ad, "AD")?;
        let behind = behind | self.ad;
        write_word(f, behind, self.cd, "CD")
    }
}

/// Writes the word if its flag is set, after a space if another word precedes it.
fn write_word<W: fmt::Write>(
    f: &mut fmt::Formatter<W>,
    behind: bool,
    set: bool,
    word: &str,
) -> fmt::Result
    ensures { DisplaysOnOk W.write_str_gives f.old result (Some (word_text behind set word.now)) f.new }
{
    if !set {
        return Ok(());
    }
    if behind {
        f.write_char(' ')?;
    }
    f.write_str(word)
}

/// Parses flag names, up to ASCII case, with spaces between them. Fails if a word names no flag.
impl FromStr for Flags {
    type Err = FlagsFromStrError;

    ghost use Rattle.dns_header.specs.Flags.{flags_read};

    ghost from_str_gives = { λ text result. result_ok result ≡ flags_read text };

    #[tactic(auto, unfolding(crate::specs::Flags::flags_read))]
    fn from_str(text: &str) -> Result<Self, FlagsFromStrError> {
        if !are_flags(text) {
            return Err(FlagsFromStrError);
        }
        Ok(Flags {
            qr: has_piece(text, "QR"),
            aa: has_piece(text, "AA"),
            tc: has_piece(text, "TC"),
            rd: has_piece(text, "RD"),
            ra: has_piece(text, "RA"),
            ad: has_piece(text, "AD"),
            cd: has_piece(text, "CD"),
        })
    }
}

ghost use Rattle.dns_header.specs.Flags as text_of;

/// Returns whether each piece of the text is empty or names a flag.
fn are_flags(text: &str) -> bool
    ensures { result ≡ list_all text_of.is_flag (text_of.pieces text.now) }
{
    text.split(' ').all(is_flag)
}

/// Returns whether the piece is empty or names a flag.
fn is_flag(piece: &str) -> bool
    ensures { result ≡ text_of.is_flag piece.now }
{
    piece.is_empty()
        || piece.eq_ignore_ascii_case("QR")
        || piece.eq_ignore_ascii_case("AA")
        || piece.eq_ignore_ascii_case("TC")
        || piece.eq_ignore_ascii_case("RD")
        || piece.eq_ignore_ascii_case("RA")
        || piece.eq_ignore_ascii_case("AD")
        || piece.eq_ignore_ascii_case("CD")
}

/// Returns whether a piece of the text is the word, up to ASCII case.
fn has_piece(text: &str, word: &str) -> bool
    ensures { result ≡ text_of.has_piece text.now word.now }
{
    text.split(' ')
        .any(|piece| piece.eq_ignore_ascii_case(word))
}

/// A piece of the text names no flag.
#[derive(Clone, Copy, Debug, PartialEq, Eq, Error)]
#[error("illegal flags token")]
pub struct FlagsFromStrError;
