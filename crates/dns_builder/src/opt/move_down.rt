//! Moving octets down in a target.
ghost use Rattle.std.specs.Prelude.{◌≡◌, ◌≤◌, ◌++◌, length, take, drop};
ghost use Rattle.dns_octets.specs.Builder.{Standing};
ghost use Rattle.dns_name.specs.Remembered.{IsKnown};

use arrayvec::ArrayVec;
use dns_name::Composer;
use std::cmp::min;

/// Moves the octets from one place on down to another, over those between. No remembered suffix may stop after that
/// place.
pub(crate) fn move_down<Target: Composer>(target: &mut Target, from: usize, to: usize)
    requires down { to ≤ from }
    requires within { from ≤ length (Target.list target.old) }
    requires stops { (standing : Standing) → IsKnown standing (Target.known target.old) → standing.stop ≤ to }
    ensures octets { Target.list target.new ≡ take to (Target.list target.old) ++ drop from (Target.list target.old) }
    ensures known { Target.known target.new ≡ Target.known target.old }
    ensures same_bound { Target.bound target.new ≡ Target.bound target.old }
    ensures stays { Target.stays target.old target.new }
{
    let mut read = from;
    let mut write = to;
    while read < target.octets().len() {
        let chunk = chunk_at(target.octets(), read);
        target.patch(write, chunk.as_slice());
        read += chunk.len();
        write += chunk.len();
    }
    target.truncate(write);
}

/// Returns the next octets from the place on, at most 64.
fn chunk_at(octets: &[u8], place: usize) -> ArrayVec<u8, 64>
    requires { place ≤ length octets.now }
    ensures { result.items ≡ take 64 (drop place octets.now) }
{
    let left = &octets[place..];
    let mut chunk = ArrayVec::new();
    match chunk.try_extend_from_slice(&left[..min(64, left.len())]) {
        Ok(()) => chunk,
        Err(_) => unreachable!(),
    }
}
