//! Laws of record data. Each function does nothing; what it ensures is the law. Those of rows are `dns_fields`'s.
ghost use Rattle.std.specs.Prelude.{◌≡◌, ◌++◌, ◌∷◌, [], ℕ, List};
ghost use Rattle.std.specs.List.{AllZip};
ghost use Rattle.dns_text.specs.Token.{Token};
ghost use Rattle.dns_text.specs.Document.{Layout, document_text};
ghost use Rattle.dns_text.specs.Document.Piece.{Newline};
ghost use Rattle.dns_text.specs.DocumentRows.{WritesToken};
ghost use Rattle.dns_text.specs.Rows.{IsTextOnly, unled};
ghost use Rattle.dns_fields.specs.SpelledNames.{SpellOne, SpellPrinted};
ghost use Rattle.dns_rdata.specs.Data.{Data, ScansAnyData, document_of, number_of};
ghost use Rattle.dns_rdata.specs.DataTokens.{HasNoEmptyTag, IsAnyData, tokens_of};

pub use dns_fields::laws::{
    canonical_order_is_octet_order, composed_data_parses_back, data_equality_order_and_hash_agree,
    data_is_read_as_one_row, iter_scanner_spells_names, printed_data_scans_back,
    tokens_scan_as_one_row,
};
use dns_text::Scanner;
use dns_text::laws::printed_documents_split;

/// What data of any type is printed as, in fields or as opaque octets (RFC 3597 5), scans back as this data and as no other. It
/// is the document of a `ZoneRecordData`.
///
/// `written`: it has tokens, unless a tag in it is empty, which is printed as no text. `splits`: under each layout its text, with
/// a line end after it, is one row of these tokens, and splits in no other way. `scans`: they are scanned as this data, with
/// none left, where a name is spelled for the scanner by the text that it is printed as (RFC 1035 5.1). `alone`: where a text is
/// one name at most, they are scanned as no other data of the type, nor with tokens left.
pub fn printed_data_of_any_type_scans_back<S: Scanner>(scanner: &S)
    ensures written { (rdata : Data) → IsAnyData rdata → HasNoEmptyTag rdata
        → (tokens : List Token) × AllZip WritesToken tokens (tokens_of rdata) }
    ensures splits { (layout : Layout) (rdata : Data) (tokens : List Token) → AllZip WritesToken tokens (tokens_of rdata)
        → IsTextOnly (document_text layout (document_of rdata ++ Newline ∷ [])) (unled tokens ∷ []) }
    ensures scans { (rdata : Data) (tokens : List Token) → IsAnyData rdata → SpellPrinted (S.names scanner.now)
        → AllZip WritesToken tokens (tokens_of rdata)
        → ScansAnyData (S.names scanner.now) (number_of rdata) rdata tokens [] }
    ensures alone { (rdata other : Data) (tokens left : List Token) → IsAnyData rdata → SpellPrinted (S.names scanner.now)
        → SpellOne (S.names scanner.now) → AllZip WritesToken tokens (tokens_of rdata)
        → ScansAnyData (S.names scanner.now) (number_of rdata) other tokens left → (other ≡ rdata) × (left ≡ []) }
{
    printed_documents_split();
    printed_data_scans_back(scanner);
    tokens_scan_as_one_row(scanner);
}

/// Tokens begin with data of a type in one way, in fields or unknown, where a text is one name at most to the scanner: as one
/// data, with the same tokens left.
pub fn tokens_scan_as_one_data<S: Scanner>(scanner: &S)
    ensures { (rtype : ℕ) (rdata other : Data) (tokens left rest : List Token) → SpellOne (S.names scanner.now)
        → ScansAnyData (S.names scanner.now) rtype rdata tokens left → ScansAnyData (S.names scanner.now) rtype other tokens rest
        → (rdata ≡ other) × (left ≡ rest) }
{
    tokens_scan_as_one_row(scanner);
}
