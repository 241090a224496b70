//! Rows of fields as a whole: written all or nothing, and their length.
ghost use Rattle.std.specs.Prelude.{◌≡◌, ◌++◌, ◌↔◌, List, Err, length, IfSome, IsNone, OnOk, OnErr};
ghost use Rattle.dns_octets.specs.Builder.{GrowsTo, IsPast};
ghost use Rattle.dns_octets.specs.declared.error.AppendError.TheVariants.{ShortBuf, BadLength};
ghost use Rattle.dns_name.specs.Page.{write};
ghost use Rattle.dns_name.specs.RecordData.{page_of, IsComposedLength, IsUntold};
ghost use Rattle.dns_fields.specs.Fields.{canonical_octets};
ghost use Rattle.dns_fields.specs.Written.{written_parts};

use crate::Row;
use dns_name::{AppendError, Composer};

/// Returns the number of octets that the row has in a message. None exactly if a name may be written with a pointer, or
/// there are more than 65,535 octets with every name in full.
pub fn row_len<R: Row>(row: &R, compress: bool) -> Option<u16>
    ensures some { IfSome result (λ len. IsComposedLength compress (written_parts (R.fields row.now)) len) }
    ensures none { IsNone result ↔ IsUntold compress (written_parts (R.fields row.now)) }
{
    if compress && R::may_point() {
        return None;
    }
    row.fields_len()
}

/// Appends the row, all or nothing. Fails with `ShortBuf` only if the target is too full, and with `OutOfMemory` only if out
/// of memory.
pub fn compose_row<R: Row, Target: Composer>(
    row: &R,
    target: &mut Target,
) -> Result<(), AppendError>
    ensures ok { OnOk result (page_of (Target.list target.new) (Target.known target.new)
        ≡ write Target.spelling (page_of (Target.list target.old) (Target.known target.old))
        (written_parts (R.fields row.now))) }
    ensures err { OnErr result ((Target.list target.new ≡ Target.list target.old)
        × (Target.known target.new ≡ Target.known target.old)) }
    ensures grows { GrowsTo (Target.list target.old) (Target.known target.old) (Target.list target.new)
        (Target.known target.new) }
    ensures short { result ≡ Err ShortBuf → IsPast (Target.bound target.old)
        (length (write Target.spelling (page_of (Target.list target.old) (Target.known target.old))
        (written_parts (R.fields row.now))).octets) }
    ensures not_bad { result ≡ Err BadLength → ⊥ }
    ensures same_bound { Target.bound target.new ≡ Target.bound target.old }
    ensures stays { Target.stays target.old target.new }
{
    let len = target.octets().len();
    match row.compose_fields(target) {
        Ok(()) => Ok(()),
        Err(error) => {
            target.truncate(len);
            Err(error)
        }
    }
}

/// Appends the canonical form of the row, all or nothing (RFC 4034 6.2). Fails as `compose_row` does.
pub fn compose_canonical_row<R: Row, Target: Composer>(
    row: &R,
    target: &mut Target,
) -> Result<(), AppendError>
    ensures ok { OnOk result (Target.list target.new
        ≡ Target.list target.old ++ canonical_octets (R.fields row.now)) }
    ensures err { OnErr result (Target.list target.new ≡ Target.list target.old) }
    ensures known { Target.known target.new ≡ Target.known target.old }
    ensures short { result ≡ Err ShortBuf
        → IsPast (Target.bound target.old) (length (Target.list target.old ++ canonical_octets (R.fields row.now))) }
    ensures not_bad { result ≡ Err BadLength → ⊥ }
    ensures same_bound { Target.bound target.new ≡ Target.bound target.old }
    ensures stays { Target.stays target.old target.new }
{
    let len = target.octets().len();
    match row.compose_canonical_fields(target) {
        Ok(()) => Ok(()),
        Err(error) => {
            target.truncate(len);
            Err(error)
        }
    }
}
