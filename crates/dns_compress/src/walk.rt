//! How much of a name is written label by label.
ghost use Rattle.std.specs.Prelude.{◌≡◌, ◌≤◌, ◌<◌, ◌+◌, ◌^◌, ◌&&◌, List, ℕ, length, true};
ghost use Rattle.dns_label.specs.Name.{IsName, wire};
ghost use Rattle.dns_name.specs.Spelling.{is_near};
ghost use Rattle.dns_name.specs.Remembered.{IsSound};
ghost use Rattle.dns_compress.specs.Tables.{looked_up};
ghost use Rattle.dns_compress.specs.Walk.{IsWalked};

use crate::table::Table;
use dns_name::Name;

/// How a name is written: its first labels one by one, and then the rest of it or a pointer.
#[derive(Clone, Copy)]
pub(crate) struct Walk {
    /// How many labels are written one by one, not counting those of a rest in full.
    pub labels: usize,
    /// How many octets these labels have, with their length octets.
    pub front: usize,
    /// Whether a pointer reaches each of them.
    pub near: bool,
    /// The target of the pointer, or None if the rest of the name is written in full.
    pub target: Option<usize>,
}

impl Walk {
    /// No label, and then the pointer or the whole name.
    fn stop(target: Option<usize>) -> Self
        ensures { result ≡ record { labels = 0; front = 0; near = true; target = target } }
    {
        Walk {
            labels: 0,
            front: 0,
            near: true,
            target,
        }
    }

    /// A label of `len` octets with its length octet, at the place, and then the labels of this walk.
    fn after(self, len: usize, place: usize) -> Self
        requires labels { self.labels < 2 ^ 63 }
        requires front { len + self.front < 2 ^ 63 }
        ensures { result ≡ record { labels = self.labels + 1; front = len + self.front; near = is_near place && self.near; target = self.target } }
    {
        Walk {
            labels: self.labels + 1,
            front: len + self.front,
            near: place < 16384 && self.near,
            target: self.target,
        }
    }
}

/// Walks over the labels of a name from the place on, up to the first suffix that is remembered, or that may not be
/// remembered. Its suffixes are looked up by those of the key.
pub(crate) fn walk_labels<T: Table>(
    table: &T,
    octets: &[u8],
    key: &Name<&[u8]>,
    more: usize,
    place: usize,
) -> Walk
    requires sound { ∥ IsSound T.spelling (T.known table.now octets.now) octets.now ∥₁ }
    requires room { place + length (wire key.now) < 2 ^ 64 }
    requires few { more + length (wire key.now) ≤ 255 }
    ensures walked { (name : List (List ℕ)) → IsName name → key.now ≡ looked_up T.lowers name
        → IsWalked T.spelling (T.known table.now octets.now) (length (T.known table.now octets.now) + more) place name
        result.labels result.front result.near result.target }
    ensures labels { result.labels + more ≤ 255 }
    ensures front { result.front ≤ length (wire key.now) }
{
    let Some((label, parent)) = key.split_first() else {
        return Walk::stop(None); // no pointer leads to the root
    };
    if let Some(target) = table.find(octets, key) {
        return Walk::stop(Some(target));
    }
    if !table.may_stand(more, place) {
        return Walk::stop(None);
    }
    let len = 1 + label.len();
    walk_labels(table, octets, &parent, more + 1, place + len).after(len, place)
}
