//! The owner that a row states.
ghost use Rattle.std.specs.Prelude.{◌≡◌, List, ℕ, Option, false, IfOk, IfErr, option_map};
ghost use Rattle.dns_scan.specs.Token.{Token, SameNames};
ghost use Rattle.dns_zonefile.specs.Statement.{HasOwner};
ghost use Rattle.dns_zonefile.specs.Seen.{row_of};

use dns_entry_scanner::EntryScanner;
use dns_name::ToName;
use dns_text::Scanner;

/// Reads the owner that a row states. A row that begins with white space states none.
pub(crate) fn scan_owner<S: EntryScanner>(
    blank_led: bool,
    scanner: &mut S,
) -> Result<Option<S::Name>, S::Error>
    ensures ok { IfOk result (λ owner. HasOwner (S.names scanner.old) (row_of blank_led (S.tokens scanner.old))
        (option_map ⟦<S::Name as ToName>⟧.name owner) (S.tokens scanner.new)) }
    ensures err { IfErr result (λ error. S.Error.is_short error ≡ false → (owner : Option (List (List ℕ))) (tokens : List Token)
        → HasOwner (S.names scanner.old) (row_of blank_led (S.tokens scanner.old)) owner tokens → ⊥) }
    ensures names { SameNames (S.names scanner.old) (S.names scanner.new) }
{
    if blank_led {
        return Ok(None);
    }
    Ok(Some(scanner.scan_name()?))
}
