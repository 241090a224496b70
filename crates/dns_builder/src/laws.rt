//! Laws of messages that are built: they read back. Each function does nothing; what it ensures is the law.
ghost use Rattle.std.specs.Prelude.{◌≡◌, ◌<◌, ℕ, List, length};
ghost use Rattle.dns_name.specs.Spelling.{Spelling};
ghost use Rattle.dns_name.specs.Page.{Page, Parts};
ghost use Rattle.dns_compress.specs.Alike.{HaveNames, LengthsFit};
ghost use Rattle.dns_header.specs.Written.{Written, parts_of, data_length};
ghost use Rattle.dns_builder.specs.Built.{Built, Draft, IsDraftOf};
ghost use Rattle.dns_builder.specs.ReadBack.{IsReadable, ReadsBack};
ghost use Rattle.dns_builder.specs.Steps.{going_to, with_item, with_header, IsTakenBy};

/// What a builder holds reads back, in any spelling: its octets are the header of the message, and then spell each item
/// of each section, one after another. Names are equal up to ASCII case if the spelling folds, and else octet for
/// octet.
pub fn built_messages_are_read_back()
    ensures { (s : Spelling) (built : Built) (draft : Draft) → IsDraftOf s built draft → IsReadable s built
        → ReadsBack s built draft.page.octets }
{}

/// With one item more in its last section, a message still reads back, if the names in the item are names and its
/// lengths fit at the end of the message.
pub fn pushed_items_are_readable()
    ensures { (s : Spelling) (built : Built) (draft : Draft) (item : Parts) → IsDraftOf s built draft → IsReadable s built
        → HaveNames item → LengthsFit s draft.page item → IsReadable s (with_item built item) }
{}

/// The length of a record's data fits if a builder takes the record. So with one such record more, a message still
/// reads back, if the names in the record are names and the lengths inside its data, if there are any, fit.
pub fn taken_records_are_readable()
    ensures { (s : Spelling) (number : ℕ) (built : Built) (draft : Draft) (w : Written) → IsDraftOf s built draft → IsReadable s built
        → IsTakenBy s number draft (parts_of w) (65535 < data_length s draft.page w)
        → HaveNames (parts_of w) → ((page : Page) → LengthsFit s page w.rdata) → IsReadable s (with_item built (parts_of w)) }
{}

/// With later sections dropped, or missing ones started, a message still reads back.
pub fn other_sections_are_readable()
    ensures { (s : Spelling) (count : ℕ) (built : Built) → IsReadable s built → IsReadable s (going_to count built) }
{}

/// With another header, a message still reads back.
pub fn other_headers_are_readable()
    ensures { (s : Spelling) (built : Built) (header : List ℕ) → length header ≡ length built.header → IsReadable s built
        → IsReadable s (with_header built header) }
{}
