//! Appends names to a target as a walk splits them.
ghost use Rattle.std.specs.Prelude.{◌≡◌, ◌≤◌, ◌<◌, ◌+◌, ◌++◌, [], Err, Some, length, take, OnOk, OnErr};
ghost use Rattle.std.specs.Option.{ForSome};
ghost use Rattle.dns_octets.specs.Builder.{IsWithin, IsPast};
ghost use Rattle.dns_octets.specs.declared.error.AppendError.TheVariants.{ShortBuf, BadLength};
ghost use Rattle.dns_name.specs.Spelling.{pointer_to};
ghost use Rattle.dns_compress.specs.Walk.{walked_text};

use crate::walk::Walk;
use dns_name::{AppendError, Composer};

/// Appends the octets before the pointer and the pointer, or all octets if there is no pointer. All or nothing.
pub(crate) fn append_walked<Target: Composer>(
    target: &mut Target,
    octets: &[u8],
    walk: Walk,
) -> Result<(), AppendError>
    requires plain { Target.known target.old ≡ [] }
    requires room { ForSome walk.target (λ place. walk.front + 2 ≤ length octets.now) }
    requires near { ForSome walk.target (λ place. place < 16384) }
    ensures ok { OnOk result (Target.list target.new ≡ Target.list target.old ++ walked_text octets.now walk.front walk.target) }
    ensures err { OnErr result (Target.list target.new ≡ Target.list target.old) }
    ensures known { Target.known target.new ≡ [] }
    ensures short { result ≡ Err ShortBuf → IsPast (Target.bound target.old) (length (Target.list target.old
        ++ walked_text octets.now walk.front walk.target)) }
    ensures fits { OnOk result (IsWithin (Target.bound target.old) (length (Target.list target.new))) }
    ensures not_bad { result ≡ Err BadLength → ⊥ }
    ensures same_bound { Target.bound target.new ≡ Target.bound target.old }
    ensures stays { Target.stays target.old target.new }
{
    match walk.target {
        None => target.append_slice(octets),
        Some(place) => append_pointed(target, octets, walk.front, place),
    }
}

/// Appends the octets before the pointer and the pointer, or nothing.
///
/// It appends the name's own two octets where the pointer goes, and then writes the pointer over them: that is one append.
fn append_pointed<Target: Composer>(
    target: &mut Target,
    octets: &[u8],
    front: usize,
    place: usize,
) -> Result<(), AppendError>
    requires plain { Target.known target.old ≡ [] }
    requires room { front + 2 ≤ length octets.now }
    requires near { place < 16384 }
    ensures ok { OnOk result (Target.list target.new ≡ Target.list target.old ++ (take front octets.now ++ pointer_to place)) }
    ensures err { OnErr result (Target.list target.new ≡ Target.list target.old) }
    ensures known { Target.known target.new ≡ [] }
    ensures short { result ≡ Err ShortBuf → IsPast (Target.bound target.old) (length (Target.list target.old
        ++ (take front octets.now ++ pointer_to place))) }
    ensures fits { OnOk result (IsWithin (Target.bound target.old) (length (Target.list target.new))) }
    ensures not_bad { result ≡ Err BadLength → ⊥ }
    ensures same_bound { Target.bound target.new ≡ Target.bound target.old }
    ensures stays { Target.stays target.old target.new }
{
    let len = target.octets().len();
    target.append_slice(&octets[..front + 2])?;
    target.patch(len + front, &pointer(place));
    Ok(())
}

/// The two octets of a pointer (RFC 1035 4.1.4).
fn pointer(place: usize) -> [u8; 2]
    requires { place < 16384 }
    ensures { result ≡ pointer_to place }
{
    [192 + (place / 256) as u8, (place % 256) as u8]
}
