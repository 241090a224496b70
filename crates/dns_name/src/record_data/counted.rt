//! Data after its length, which is patched when the data is written.
ghost use Rattle.std.specs.Prelude.{◌≡◌, ◌≤◌, ◌<◌, ◌+◌, ◌-◌, ◌++◌, ◌↔◌, true, Err, length, IsOk, IfErr, OnOk, OnErr};
ghost use Rattle.std.specs.Int.{to_be_bytes, w16};
ghost use Rattle.dns_octets.specs.Builder.{GrowsTo, IsPast};
ghost use Rattle.dns_octets.specs.declared.error.AppendError.TheVariants.{ShortBuf, BadLength};
ghost use Rattle.dns_name.specs.Page.{with_count, write};
ghost use Rattle.dns_name.specs.Page.Parts.{End, Counted};
ghost use Rattle.dns_name.specs.Remembered.{is_free};
ghost use Rattle.dns_name.specs.RecordData.{page_of, counted_length};

use super::ComposeRecordData;
use crate::Composer;
use dns_octets::AppendError;

/// Appends the data after its length, or as much of them as there is room for.
pub fn append_counted<Data: ComposeRecordData, Target: Composer>(
    rdata: &Data,
    target: &mut Target,
) -> Result<(), AppendError>
    ensures ok { OnOk result (page_of (Target.list target.new) (Target.known target.new)
        ≡ write Target.spelling (page_of (Target.list target.old) (Target.known target.old))
        (Counted (Data.parts rdata.now) End)) }
    ensures counts { OnOk result (counted_length Target.spelling (page_of (Target.list target.old)
        (Target.known target.old)) (Data.parts rdata.now) ≤ 65535) }
    ensures grows { GrowsTo (Target.list target.old) (Target.known target.old) (Target.list target.new)
        (Target.known target.new) }
    ensures short { result ≡ Err ShortBuf → IsPast (Target.bound target.old)
        (length (write Target.spelling (page_of (Target.list target.old) (Target.known target.old))
        (Counted (Data.parts rdata.now) End)).octets) }
    ensures bad { result ≡ Err BadLength
        → 65535 < counted_length Target.spelling (page_of (Target.list target.old)
        (Target.known target.old)) (Data.parts rdata.now) }
    ensures same_bound { Target.bound target.new ≡ Target.bound target.old }
    ensures stays { Target.stays target.old target.new }
{
    let place = target.octets().len();
    target.append_slice(&[0, 0])?;
    rdata.compose_rdata(target)?;
    count_behind(target, place)?;
    Ok(())
}

/// Appends the canonical form of the data after its length, or as much of them as there is room for.
pub fn append_canonical_counted<Data: ComposeRecordData, Target: Composer>(
    rdata: &Data,
    target: &mut Target,
) -> Result<(), AppendError>
    ensures ok { OnOk result (Target.list target.new
        ≡ Target.list target.old ++ (to_be_bytes w16 (length (Data.canonical_octets rdata.now))
        ++ Data.canonical_octets rdata.now)) }
    ensures counts { OnOk result (length (Data.canonical_octets rdata.now) ≤ 65535) }
    ensures known { Target.known target.new ≡ Target.known target.old }
    ensures grows { GrowsTo (Target.list target.old) (Target.known target.old) (Target.list target.new)
        (Target.known target.new) }
    ensures short { result ≡ Err ShortBuf → IsPast (Target.bound target.old)
        (length (Target.list target.old) + 2 + length (Data.canonical_octets rdata.now)) }
    ensures bad { result ≡ Err BadLength → 65535 < length (Data.canonical_octets rdata.now) }
    ensures same_bound { Target.bound target.new ≡ Target.bound target.old }
    ensures stays { Target.stays target.old target.new }
{
    let place = target.octets().len();
    target.append_slice(&[0, 0])?;
    rdata.compose_canonical_rdata(target)?;
    count_behind(target, place)?;
    Ok(())
}

/// Writes into the two octets at the place the number of octets after them. Fails if that number does not fit in 16
/// bits.
fn count_behind<Target: Composer>(target: &mut Target, place: usize) -> Result<(), AppendError>
    requires within { place + 2 ≤ length (Target.list target.old) }
    requires free { is_free place (place + 2) (Target.known target.old) ≡ true }
    ensures ok { OnOk result (Target.list target.new
        ≡ (with_count place (page_of (Target.list target.old) (Target.known target.old))).octets) }
    ensures err { OnErr result (Target.list target.new ≡ Target.list target.old) }
    ensures known { Target.known target.new ≡ Target.known target.old }
    ensures counts { IsOk result ↔ (length (Target.list target.old) - (place + 2) ≤ 65535) }
    ensures bad { IfErr result (λ error. error ≡ BadLength) }
    ensures same_bound { Target.bound target.new ≡ Target.bound target.old }
    ensures stays { Target.stays target.old target.new }
{
    let count = target.octets().len() - (place + 2);
    if count > 65535 {
        return Err(AppendError::BadLength);
    }
    target.patch(place, &(count as u16).to_be_bytes());
    Ok(())
}
