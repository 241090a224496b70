//! Laws of documents. Each function does nothing; what it ensures is the law.
ghost use Rattle.std.specs.Prelude.{◌≡◌, ◌∷◌, ◌++◌, [], ℕ, List, map, true, false};
ghost use Rattle.std.specs.List.{AllByRecursion};
ghost use Rattle.dns_label.specs.Octets.{AreOctets};
ghost use Rattle.dns_text.specs.Document.{Layout, Piece, document_text, is_inside};
ghost use Rattle.dns_text.specs.Document.Layout.{Multiline};
ghost use Rattle.dns_text.specs.Document.Piece.{Comment, Open, Close, Newline};
ghost use Rattle.dns_text.specs.Lines.{IsNoToken, Part, closes, line_pieces, line_text, lines_pieces, lines_text, place_after};
ghost use Rattle.dns_text.specs.DocumentRows.{HasRows};
ghost use Rattle.dns_text.specs.Rows.{IsTextOnly, unled};
ghost use Rattle.dns_scan.specs.Token.{Token};
ghost use Rattle.dns_text.specs.Uncertain.{IsTextOf, labels_of, text_of};

use crate::UncertainName;
use dns_name::Octets;
use dns_name::laws::{dotted_text_reads_back, relative_text_reads_back, text_spells_one_name};

/// Under each layout the text of a document splits into rows with the tokens of its own rows, and with no others. No
/// row begins with white space, so each has an owner of its own (RFC 1035 5.1). The tokens are words and quoted
/// strings, the comments have no line feed and are in blocks, and a line end follows the last piece.
pub fn printed_documents_split()
    ensures { (layout : Layout) (document : List Piece) (rows : List (List Token)) → HasRows 0 document rows
        → IsTextOnly (document_text layout document) (map unled rows) }
{}

/// What the text of a document is under each layout, told by what is between its pieces.
///
/// `line`, `lines`: on a line of words and blocks there is one space between any two texts, under `Tabbed` a tab. A
/// block's tokens are texts of their own under `Simple`, and one text with spaces under `Tabbed`. Under `Multiline`
/// they are between parentheses, each after eight spaces on a line of its own, and so is the closing parenthesis.
/// `end`: a line end outside of blocks is a line feed, and what follows is as at the start of a document. Inside a
/// block it adds nothing (`held`), and neither do the marks of a block there (`inner`). Under `Simple` and `Tabbed` a
/// block without tokens adds nothing (`bare`), and neither does a comment (`comment`). Under `Multiline` a comment is a
/// tab, `; ` and its text, wherever it is (`noted`).
pub fn documents_print_by_layout()
    ensures line { (layout : Layout) (parts : List Part) → document_text layout (line_pieces parts) ≡ line_text layout parts }
    ensures lines { (layout : Layout) (lines : List (List Part)) → document_text layout (lines_pieces lines) ≡ lines_text layout lines }
    ensures end { (layout : Layout) (front rest : List Piece) → is_inside (place_after [] front) ≡ false
        → document_text layout (front ++ Newline ∷ rest) ≡ document_text layout front ++ 10 ∷ document_text layout rest }
    ensures held { (layout : Layout) (front rest : List Piece) → is_inside (place_after [] front) ≡ true
        → document_text layout (front ++ Newline ∷ rest) ≡ document_text layout (front ++ rest) }
    ensures inner { (layout : Layout) (front block rest : List Piece) → is_inside (place_after [] front) ≡ true → closes 0 block ≡ true
        → document_text layout (front ++ (Open ∷ block ++ Close ∷ rest)) ≡ document_text layout (front ++ (block ++ rest)) }
    ensures bare { (layout : Layout) (front block rest : List Piece) → (layout ≡ Multiline → ⊥) → closes 0 block ≡ true
        → AllByRecursion IsNoToken block
        → document_text layout (front ++ (Open ∷ block ++ Close ∷ rest)) ≡ document_text layout (front ++ rest) }
    ensures comment { (layout : Layout) (front rest : List Piece) (text : List ℕ) → (layout ≡ Multiline → ⊥)
        → document_text layout (front ++ Comment text ∷ rest) ≡ document_text layout (front ++ rest) }
    ensures noted { (front : List Piece) (text : List ℕ)
        → document_text Multiline (front ++ Comment text ∷ []) ≡ document_text Multiline front ++ 9 ∷ 59 ∷ 32 ∷ text }
{}

/// The text that shows a name, absolute or relative, spells that name, of its kind, and no other.
pub fn uncertain_text_reads_back<Octs: Octets>(name: &UncertainName<Octs>)
    ensures spells { AllByRecursion AreOctets (labels_of name.now) → IsTextOf (text_of name.now) name.now }
    ensures alone { AllByRecursion AreOctets (labels_of name.now) → (other : _) → IsTextOf (text_of name.now) other
        → other ≡ name.now }
{
    let _octets = name.as_slice();
    dotted_text_reads_back();
    relative_text_reads_back();
    text_spells_one_name();
}
