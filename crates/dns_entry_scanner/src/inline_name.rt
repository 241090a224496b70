//! Names in arrays, without allocations.
ghost use Rattle.std.specs.Prelude.{◌≡◌, ◌+◌, ◌<◌, ◌≤◌, ◌++◌, List, ℕ, [], IsOk, IfOk, length};
ghost use Rattle.dns_label.specs.Name.{IsName};
ghost use Rattle.dns_wire.specs.Draft.{Holds, IsNew};

use crate::text_name::finished_octets;
use crate::{InlineName, TextName};
use arrayvec::ArrayVec;
use dns_flat::wire_form::wire_of;
use dns_name::{Name, Octets, ToName};
use dns_wire::text::NameDraft;
use std::alloc::{AllocError, Global};

/// Nothing is allocated, so none of these calls fails.
impl TextName for InlineName {
    fn of_name<Octs: Octets>(_alloc: Global, name: &Name<Octs>) -> Result<Self, AllocError>
        ensures made { IfOk result (λ made. made ≡ name.now) }
        ensures always { IsOk result }
    {
        Ok(to_inline_name(name))
    }

    fn of_labels(_alloc: Global, draft: &NameDraft) -> Result<Self, AllocError>
        requires labels { (labels : List (List ℕ)) × Holds draft.now labels [] }
        requires some { IsNew draft.now → ⊥ }
        ensures made { IfOk result (λ made. Holds draft.now made [] × IsName made × (0 < length made)) }
        ensures always { IsOk result }
    {
        let mut octets = ArrayVec::new();
        append(&mut octets, finished_octets(draft));
        Ok(Name::from_octets_unchecked(octets))
    }

    fn of_labels_under(
        _alloc: Global,
        draft: &NameDraft,
        origin: &Name<Vec<u8>>,
    ) -> Result<Self, AllocError>
        requires { (labels : List (List ℕ)) × Holds draft.now labels [] × IsName (labels ++ origin.now) }
        ensures made { IfOk result (λ made. (labels : List (List ℕ)) × Holds draft.now labels []
            × IsName (labels ++ origin.now) × (made ≡ labels ++ origin.now)) }
        ensures always { IsOk result }
    {
        let mut octets = ArrayVec::new();
        append(&mut octets, draft.labels());
        append(&mut octets, origin.as_slice());
        Ok(Name::from_octets_unchecked(octets))
    }
}

/// Returns a copy of the name in an array.
pub fn to_inline_name<N: ToName>(name: &N) -> InlineName
    ensures { result ≡ N.name name.now }
{
    let wire = wire_of(name);
    let mut octets = ArrayVec::new();
    append(&mut octets, wire.as_slice());
    Name::from_octets_unchecked(octets)
}

/// Appends the octets. The caller guarantees that they fit.
fn append(octets: &mut ArrayVec<u8, 255>, more: &[u8])
    requires { length octets.old.items + length more.now ≤ 255 }
    ensures { octets.new.items ≡ octets.old.items ++ more.now }
{
    if octets.try_extend_from_slice(more).is_err() {
        unreachable!();
    }
}
