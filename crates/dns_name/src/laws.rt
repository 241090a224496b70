//! Laws of names: statements over the definitions, each the contract of a function that does nothing.
//!
//! A name is the list of its labels, whatever holds it. The calls on names return what the definitions below say of
//! these lists.
ghost use Rattle.std.specs.Prelude.{◌≡◌, ◌≤◌, ◌↔◌, List, ℕ, false, map};
ghost use Rattle.std.specs.Char.{to_ascii_lowercase};
ghost use Rattle.std.specs.Cmp.{IsTotalOrder};
ghost use Rattle.std.specs.Ordering.{is_gt};
ghost use Rattle.std.specs.declared.cmp.Ordering.TheVariants.{Equal};
ghost use Rattle.dns_label.specs.Name.{IsName, low, wire};
ghost use Rattle.dns_label.specs.Spelled.{DecodesName};
ghost use Rattle.dns_name.specs.HeadCount.{heads_of};
ghost use Rattle.dns_wire.specs.Order.{labels_order};
ghost use Rattle.dns_wire.specs.Skip.{Skips};
ghost use Rattle.dns_name.specs.ParsedName.{labels_in};
ghost use Rattle.dns_wire.specs.Suffix.{EndsWith};

mod text;

use crate::ParsedName;
use dns_flat::Name;
use dns_octets::Octets;
use std::hash::Hash;
pub use text::{
    dotted_text_reads_back, relative_text_reads_back, seen_labels_print_as_their_name,
    text_spells_one_name,
};

/// Two names are the same up to ASCII case exactly if their octets in lower case are equal, and exactly if the order is
/// `Equal` (RFC 4343).
pub fn name_equality_is_lowered_wire()
    ensures wire { (name other : List (List ℕ)) → IsName name → IsName other
        → (low name ≡ low other) ↔ (map to_ascii_lowercase (wire name) ≡ map to_ascii_lowercase (wire other)) }
    ensures order { (name other : List (List ℕ)) → (low name ≡ low other) ↔ (labels_order name other ≡ Equal) }
{}

/// The order of names is total up to ASCII case (RFC 4034 6.1).
pub fn name_order_is_total()
    ensures { IsTotalOrder labels_order }
{}

/// The names at or under an apex are an interval in the order of names, and the apex is the least of them.
pub fn names_under_an_apex_are_an_interval()
    ensures interval { (apex first name last : List (List ℕ)) → EndsWith (low first) (low apex) → EndsWith (low last) (low apex)
        → is_gt (labels_order first name) ≡ false → is_gt (labels_order name last) ≡ false → EndsWith (low name) (low apex) }
    ensures least { (apex name : List (List ℕ)) → EndsWith (low name) (low apex) → is_gt (labels_order apex name) ≡ false }
{}

/// Names that are the same up to ASCII case feed a hasher the same octets, whatever holds them.
pub fn equal_names_hash_alike<F: Octets, G: Octets, P: Octets>(
    flat: &Name<F>,
    other: &Name<G>,
    parsed: &ParsedName<P>,
)
    ensures flat { low flat.now ≡ low other.now → ⟦<Name<F> as Hash>⟧.hash_input flat.now ≡ ⟦<Name<G> as Hash>⟧.hash_input other.now }
    ensures parsed { low flat.now ≡ low (labels_in P.list parsed.now)
        → ⟦<Name<F> as Hash>⟧.hash_input flat.now ≡ ⟦<ParsedName<P> as Hash>⟧.hash_input parsed.now }
{}

/// At a place where a name is read, a reader that follows no pointer stops where the parser does, and nowhere else (RFC
/// 1035 4.1.4).
pub fn skip_stops_where_parse_stops()
    ensures stops { (message : List ℕ) (place next : ℕ) (name : List (List ℕ)) → DecodesName message place name next → Skips message 254 place next }
    ensures once { (message : List ℕ) (room place next end : ℕ) → Skips message room place next → Skips message room place end → next ≡ end }
{}

/// A name that is read at a place has at most 383 heads: those of 127 labels, 255 pointers and the root.
pub fn label_heads_are_bounded()
    ensures { (message : List ℕ) (place next : ℕ) (name : List (List ℕ)) (reads : DecodesName message place name next) → heads_of reads.spelled ≤ 383 }
{}
