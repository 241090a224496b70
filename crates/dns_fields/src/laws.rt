//! Laws of record data. Each function does nothing; what it ensures is the law.
ghost use Rattle.std.specs.Prelude.{◌≡◌, ◌++◌, [], Some, ℕ, List, IsTrue, length};
ghost use Rattle.std.specs.Cmp.Lexicographic.{slice_cmp};
ghost use Rattle.std.specs.List.{AllZip};
ghost use Rattle.std.specs.Ordering.{is_eq, nat_cmp};
ghost use Rattle.dns_label.specs.Octets.{AreOctets};
ghost use Rattle.dns_label.specs.NameText.{IsNameText};
ghost use Rattle.dns_scan.specs.Token.{Token};
ghost use Rattle.dns_text.specs.DocumentRows.{WritesToken};
ghost use Rattle.dns_fields.specs.Alike.{keys, rows_eq, rows_cmp, canonical_rows_cmp};
ghost use Rattle.dns_fields.specs.Fields.{Kind, Field, octets, canonical_octets, IsRow, IsData, kinds_of};
ghost use Rattle.dns_fields.specs.Reading.{ReadsRow};
ghost use Rattle.dns_fields.specs.Scanned.{ScansData};
ghost use Rattle.dns_fields.specs.Shown.{TagsAreSome, row_tokens};
ghost use Rattle.dns_fields.specs.SpelledNames.{SpellOne, SpellPrinted};

use dns_name::laws::{dotted_text_reads_back, text_spells_one_name};
use dns_scan::Scanner;
use dns_scan::laws::texts_read_back;

/// The octets of a row of a type, its names in full, are read as this row where they end the octets, and as no other row of
/// the type: what `parse_row` gives is the row that was written. So data of a type that has fields is read as a row of it.
pub fn composed_data_parses_back()
    ensures reads { (rtype : ℕ) (front : List ℕ) (row : List Field) → IsRow rtype row → ReadsRow rtype (front ++ octets row) (length front) row }
    ensures alone { (rtype : ℕ) (front : List ℕ) (row other : List Field) → IsRow rtype row
        → ReadsRow rtype (front ++ octets row) (length front) other → other ≡ row }
    ensures data { (rtype : ℕ) (front all : List ℕ) (kinds : List Kind) → kinds_of rtype ≡ Some kinds → IsData rtype all
        → (row : List Field) × ReadsRow rtype (front ++ all) (length front) row × (octets row ≡ all) }
{}

/// Data of a type is at a place of a message in one way, pointers in its names followed: it is read as one row.
pub fn data_is_read_as_one_row()
    ensures { (rtype : ℕ) (message : List ℕ) (place : ℕ) (row other : List Field) → ReadsRow rtype message place row
        → ReadsRow rtype message place other → row ≡ other }
{}

/// The tokens whose texts a row of a type is printed as are scanned as this row, with none left, where a name is spelled for
/// the scanner by the text that it is printed as (RFC 1035 5.1); and as no other row of the type, nor with tokens left, where a
/// text is one name at most. There are such tokens unless the row has an empty tag, which is printed as no text.
pub fn printed_data_scans_back<S: Scanner>(scanner: &S)
    ensures written { (rtype : ℕ) (row : List Field) → IsRow rtype row → AreOctets (octets row)
        → TagsAreSome row → (tokens : List Token) × AllZip WritesToken tokens (row_tokens row) }
    ensures scans { (rtype : ℕ) (row : List Field) (tokens : List Token) → IsRow rtype row
        → AreOctets (octets row)
        → SpellPrinted (S.names scanner.now)
        → AllZip WritesToken tokens (row_tokens row) → ScansData (S.names scanner.now) rtype row tokens [] }
    ensures alone { (rtype : ℕ) (row other : List Field) (tokens left : List Token) → IsRow rtype row
        → AreOctets (octets row) → SpellPrinted (S.names scanner.now) → SpellOne (S.names scanner.now)
        → AllZip WritesToken tokens (row_tokens row) → ScansData (S.names scanner.now) rtype other tokens left
        → (other ≡ row) × (left ≡ []) }
{
    texts_read_back();
}

/// Tokens begin with data of a type in one way, where a text is one name at most to the scanner: as one row, with the same tokens
/// left.
pub fn tokens_scan_as_one_row<S: Scanner>(scanner: &S)
    ensures { (rtype : ℕ) (row other : List Field) (tokens left rest : List Token) → SpellOne (S.names scanner.now)
        → ScansData (S.names scanner.now) rtype row tokens left → ScansData (S.names scanner.now) rtype other tokens rest
        → (row ≡ other) × (left ≡ rest) }
{}

/// The names that `IterScanner` takes are so: each is spelled by the text that it is printed as, and a text is one name at most.
pub fn iter_scanner_spells_names()
    ensures printed { SpellPrinted IsNameText }
    ensures one { SpellOne IsNameText }
{
    dotted_text_reads_back();
    text_spells_one_name();
}

/// Rows are equal exactly if their order ties them, and rows that are equal are hashed alike.
pub fn data_equality_order_and_hash_agree()
    ensures order { (row other : List Field) → rows_eq row other ≡ is_eq (rows_cmp row other) }
    ensures hash { (row other : List Field) → IsTrue (rows_eq row other) → keys row ≡ keys other }
{}

/// The canonical order of rows is the order of their canonical octets, a beginning first (RFC 4034 6.3).
pub fn canonical_order_is_octet_order()
    ensures { (row other : List Field) → canonical_rows_cmp row other ≡ slice_cmp nat_cmp (canonical_octets row) (canonical_octets other) }
{}
