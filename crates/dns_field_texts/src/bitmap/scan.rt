//! Bitmaps from the tokens of an entry.
ghost use Rattle.std.specs.Prelude.{◌≡◌, List, ℕ, false, IfErr, OnOk};
ghost use Rattle.dns_scan.specs.Token.{SameNames};
ghost use Rattle.dns_field_texts.specs.Appended.{GoesOn};
ghost use Rattle.dns_field_texts.specs.TypeBitmap.{AppendsTypes, SpellsNoTypes};
ghost use Rattle.dns_field_texts.specs.TypeWords.{type_word_read};

use super::type_set::TypeSet;
use crate::type_words::read_type;
use dns_text::{Scanner, ScannerError};

/// Scans all words that are left, each a type, in any order and repeated or not, and appends the bitmap of these types.
///
/// Fails with an error other than `short_buf` only if a token spells no type. It may have appended some octets.
pub fn scan_types_into<S: Scanner>(scanner: &mut S, octets: &mut Vec<u8>) -> Result<(), S::Error>
    ensures ok { OnOk result (AppendsTypes (S.tokens scanner.old) (S.tokens scanner.new) octets.old.items octets.new.items) }
    ensures err { IfErr result (λ error. S.Error.is_short error ≡ false → SpellsNoTypes (S.tokens scanner.old)) }
    ensures names { SameNames (S.names scanner.old) (S.names scanner.new) }
    ensures more { GoesOn octets.old.items octets.new.items }
{
    let mut set = TypeSet::new(*octets.allocator());
    while scanner.continues() {
        let number = match scanner.scan_ascii_str(type_number) {
            Ok(number) => number,
            Err(error) => return Err(error),
        };
        match set.insert(number) {
            Ok(()) => {}
            Err(_) => return Err(S::Error::short_buf()),
        }
    }
    match set.append_to(octets) {
        Ok(()) => Ok(()),
        Err(_) => Err(S::Error::short_buf()),
    }
}

/// Returns the number of the type that a word stands for.
fn type_number(word: &str) -> Option<u16>
    ensures { result ≡ type_word_read word.now }
{
    let rtype = read_type(word.as_bytes())?;
    Some(rtype.to_int())
}
