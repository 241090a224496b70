//! Laws of the data. Each function does nothing; what it ensures is the law.
ghost use Rattle.std.specs.Prelude.{◌≡◌, ◌++◌, ◌∷◌, [], ℕ, List};
ghost use Rattle.std.specs.List.{AllZip};
ghost use Rattle.dns_label.specs.Octets.{AreOctets};
ghost use Rattle.dns_scan.specs.Token.{Token};
ghost use Rattle.dns_text.specs.Document.{Layout, document_text};
ghost use Rattle.dns_text.specs.Document.Piece.{Newline};
ghost use Rattle.dns_text.specs.DocumentRows.{WritesToken};
ghost use Rattle.dns_text.specs.Rows.{IsTextOnly, unled};
ghost use Rattle.dns_fields.specs.Fields.{Field, octets};
ghost use Rattle.dns_fields.specs.SpelledNames.{SpellOne, SpellPrinted};
ghost use Rattle.dns_fields_more.specs.Forms.{IsFurtherCanonical, IsFurtherData, IsFurtherRow};
ghost use Rattle.dns_fields_more.specs.Printed.{HasNoEmptyRest};
ghost use Rattle.dns_fields_more.specs.Text.{AppendsFurther};
ghost use Rattle.dns_rdata_more.specs.FurtherData.{IsFieldAt, canonical_of, row_read};
ghost use Rattle.dns_rdata_more.specs.Shown.{further_document, further_tokens};

use dns_fields_more::laws::printed_further_row_scans_back;
use dns_text::Scanner;
use dns_text::laws::printed_documents_split;

/// The row that is read from the octets of a row is this row.
pub fn rows_are_read_back()
    ensures { (rtype : ℕ) (row : List Field) → IsFurtherRow rtype row → row_read rtype (octets row) ≡ row }
{}

/// The canonical form that is written is the one of the fields.
pub fn canonical_form_is_of_fields()
    ensures { (rtype : ℕ) (given canonical : List ℕ) → IsFurtherCanonical rtype given canonical → canonical_of rtype given ≡ canonical }
{}

/// Data has one field at a place.
pub fn one_field_is_at_a_place()
    ensures { (rtype place : ℕ) (given : List ℕ) (field other : Field) → IsFieldAt rtype given place field → IsFieldAt rtype given place other → field ≡ other }
{}

/// What data of a further type is printed as scans back as this data and as no other. It is the document of a `FurtherData` and of an
/// `AnyFurtherData`.
///
/// `written`: it is printed as tokens. `splits`: under each layout its text, with a line end after it, is one row of these tokens, and
/// splits in no other way. `scans`: they are scanned as this data, with none left, where a name is spelled for the scanner by the text
/// that it is printed as (RFC 1035 5.1); but data whose key, digest or signature has no octets is not read from text. `alone`: where a
/// text is one name at most, they are scanned as no other data of the type, nor with tokens left.
pub fn printed_further_data_scans_back<S: Scanner>(scanner: &S)
    ensures written { (rtype : ℕ) (given : List ℕ) → IsFurtherData rtype given → AreOctets given
        → (tokens : List Token) × AllZip WritesToken tokens (further_tokens rtype given) }
    ensures splits { (layout : Layout) (rtype : ℕ) (given : List ℕ) (tokens : List Token) → AllZip WritesToken tokens (further_tokens rtype given)
        → IsTextOnly (document_text layout (further_document rtype given ++ Newline ∷ [])) (unled tokens ∷ []) }
    ensures scans { (rtype : ℕ) (given : List ℕ) (tokens : List Token) → IsFurtherData rtype given → HasNoEmptyRest rtype (row_read rtype given) → AreOctets given
        → SpellPrinted (S.names scanner.now) → AllZip WritesToken tokens (further_tokens rtype given)
        → AppendsFurther (S.names scanner.now) rtype tokens [] [] given }
    ensures alone { (rtype : ℕ) (given other : List ℕ) (tokens left : List Token) → IsFurtherData rtype given → HasNoEmptyRest rtype (row_read rtype given) → AreOctets given
        → SpellPrinted (S.names scanner.now) → SpellOne (S.names scanner.now) → AllZip WritesToken tokens (further_tokens rtype given)
        → AppendsFurther (S.names scanner.now) rtype tokens left [] other → AreOctets other → (other ≡ given) × (left ≡ []) }
{
    printed_documents_split();
    printed_further_row_scans_back(scanner);
}
