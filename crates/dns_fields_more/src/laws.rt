//! Laws of the rows. Each function does nothing; what it ensures is the law.
ghost use Rattle.std.specs.Prelude.{◌≡◌, [], ℕ, List};
ghost use Rattle.dns_label.specs.Octets.{AreOctets};
ghost use Rattle.dns_scan.specs.Token.{Token};
ghost use Rattle.dns_fields.specs.Fields.{Field, octets};
ghost use Rattle.dns_fields.specs.SpelledNames.{SpellOne, SpellPrinted};
ghost use Rattle.dns_fields_more.specs.Forms.{IsFurtherRow};
ghost use Rattle.dns_fields_more.specs.Printed.{HasNoEmptyRest, IsPrintedAs};
ghost use Rattle.dns_fields_more.specs.Text.{ScansFurther, ScansLongRow};

use dns_scan::laws::texts_read_back;
use dns_service_parameters::laws::printed_parameters_scan_back;
use dns_text::Scanner;

/// Tokens begin with data of a further type in one way, where a text is one name at most to the scanner: with the same tokens left,
/// as the same octets, and not also as a row that is too long for a record. The octets are the same if they are octets, as what a
/// program holds always is: the types of a bitmap say nothing of numbers beyond eight bits.
pub fn tokens_scan_as_one_further_row<S: Scanner>(scanner: &S)
    ensures left { (rtype : ℕ) (row other : List Field) (tokens left rest : List Token) → SpellOne (S.names scanner.now)
        → ScansFurther (S.names scanner.now) rtype row tokens left → ScansFurther (S.names scanner.now) rtype other tokens rest
        → left ≡ rest }
    ensures same { (rtype : ℕ) (row other : List Field) (tokens left rest : List Token) → SpellOne (S.names scanner.now)
        → ScansFurther (S.names scanner.now) rtype row tokens left → ScansFurther (S.names scanner.now) rtype other tokens rest
        → AreOctets (octets row) → AreOctets (octets other) → octets row ≡ octets other }
    ensures short { (rtype : ℕ) (row : List Field) (tokens left : List Token) → SpellOne (S.names scanner.now)
        → ScansFurther (S.names scanner.now) rtype row tokens left → ScansLongRow (S.names scanner.now) rtype tokens → ⊥ }
{}

/// What a row of a further type is printed as is scanned as this row.
///
/// `written`: the row is printed as tokens, also where a field has none, as a bitmap without types. `scans`: these are scanned as the
/// row, with none left, where a name is spelled for the scanner by the text that it is printed as (RFC 1035 5.1); but a row whose key,
/// digest or signature has no octets is not read from text. `alone`: where a text is one name at most, they are scanned as no other
/// octets, nor with tokens left.
pub fn printed_further_row_scans_back<S: Scanner>(scanner: &S)
    ensures written { (rtype : ℕ) (row : List Field) → IsFurtherRow rtype row → AreOctets (octets row)
        → (tokens : List Token) × IsPrintedAs rtype row tokens }
    ensures scans { (rtype : ℕ) (row : List Field) (tokens : List Token) → IsFurtherRow rtype row → HasNoEmptyRest rtype row → AreOctets (octets row)
        → SpellPrinted (S.names scanner.now) → IsPrintedAs rtype row tokens → ScansFurther (S.names scanner.now) rtype row tokens [] }
    ensures alone { (rtype : ℕ) (row other : List Field) (tokens left : List Token) → IsFurtherRow rtype row → HasNoEmptyRest rtype row → AreOctets (octets row)
        → SpellPrinted (S.names scanner.now) → SpellOne (S.names scanner.now) → IsPrintedAs rtype row tokens
        → ScansFurther (S.names scanner.now) rtype other tokens left → AreOctets (octets other)
        → (octets other ≡ octets row) × (left ≡ []) }
{
    texts_read_back();
    printed_parameters_scan_back();
}
