//! Records in canonical form (RFC 4034 6.2).
ghost use Rattle.std.specs.Prelude.{◌≡◌, ◌≤◌, ◌<◌, ◌++◌, ℕ, List, Err, length, OnOk, OnErr};
ghost use Rattle.dns_label.specs.Name.{wire, low};
ghost use Rattle.dns_octets.specs.Builder.{GrowsTo, IsPast};
ghost use Rattle.dns_octets.specs.declared.error.AppendError.TheVariants.{ShortBuf, BadLength};
ghost use Rattle.dns_header.specs.Head.{canonical_record};

use super::fixed;
use dns_name::{AppendError, Class, ComposeRecordData, Composer, ToName, Ttl};

/// Appends the canonical form of the record with these fields, all or nothing.
pub(crate) fn compose_canonical_parts<N: ToName, Data: ComposeRecordData, Target: Composer>(
    owner: &N,
    class: Class,
    ttl: Ttl,
    rdata: &Data,
    target: &mut Target,
) -> Result<(), AppendError>
    ensures ok { OnOk result (Target.list target.new ≡ Target.list target.old
        ++ canonical_record (N.name owner.now) (Data.rtype rdata.now) class ttl (Data.canonical_octets rdata.now)) }
    ensures err { OnErr result (Target.list target.new ≡ Target.list target.old) }
    ensures known { Target.known target.new ≡ Target.known target.old }
    ensures short { result ≡ Err ShortBuf → IsPast (Target.bound target.old) (length (Target.list target.old
        ++ canonical_record (N.name owner.now) (Data.rtype rdata.now) class ttl (Data.canonical_octets rdata.now))) }
    ensures bad { result ≡ Err BadLength → 65535 < length (Data.canonical_octets rdata.now) }
    ensures counts { OnOk result (length (Data.canonical_octets rdata.now) ≤ 65535) }
    ensures same_bound { Target.bound target.new ≡ Target.bound target.old }
    ensures stays { Target.stays target.old target.new }
{
    let len = target.octets().len();
    match append_canonical_parts(owner, class, ttl, rdata, target) {
        Ok(()) => Ok(()),
        Err(error) => {
            target.truncate(len);
            Err(error)
        }
    }
}

/// Appends the canonical form of the record with these fields, or as much of it as there is room for.
fn append_canonical_parts<N: ToName, Data: ComposeRecordData, Target: Composer>(
    owner: &N,
    class: Class,
    ttl: Ttl,
    rdata: &Data,
    target: &mut Target,
) -> Result<(), AppendError>
    ensures ok { OnOk result (Target.list target.new ≡ Target.list target.old
        ++ canonical_record (N.name owner.now) (Data.rtype rdata.now) class ttl (Data.canonical_octets rdata.now)) }
    ensures known { Target.known target.new ≡ Target.known target.old }
    ensures grows { GrowsTo (Target.list target.old) (Target.known target.old) (Target.list target.new)
        (Target.known target.new) }
    ensures short { result ≡ Err ShortBuf → IsPast (Target.bound target.old) (length (Target.list target.old
        ++ canonical_record (N.name owner.now) (Data.rtype rdata.now) class ttl (Data.canonical_octets rdata.now))) }
    ensures bad { result ≡ Err BadLength → 65535 < length (Data.canonical_octets rdata.now) }
    ensures counts { OnOk result (length (Data.canonical_octets rdata.now) ≤ 65535) }
    ensures same_bound { Target.bound target.new ≡ Target.bound target.old }
    ensures stays { Target.stays target.old target.new }
{
    append_canonical_head(owner, &fixed(rdata.rtype(), class, ttl), target)?;
    rdata.compose_canonical_len_rdata(target)
}

/// Appends an owner in lower case and then the octets, or as much of them as there is room for.
fn append_canonical_head<N: ToName, Target: Composer>(
    owner: &N,
    octets: &[u8],
    target: &mut Target,
) -> Result<(), AppendError>
    ensures ok { OnOk result (Target.list target.new ≡ Target.list target.old ++ (wire (low (N.name owner.now)) ++ octets.now)) }
    ensures known { Target.known target.new ≡ Target.known target.old }
    ensures grows { GrowsTo (Target.list target.old) (Target.known target.old) (Target.list target.new)
        (Target.known target.new) }
    ensures short { result ≡ Err ShortBuf → IsPast (Target.bound target.old)
        (length (Target.list target.old ++ (wire (low (N.name owner.now)) ++ octets.now))) }
    ensures not_bad { result ≡ Err BadLength → ⊥ }
    ensures same_bound { Target.bound target.new ≡ Target.bound target.old }
    ensures stays { Target.stays target.old target.new }
{
    owner.compose_canonical(target)?;
    target.append_slice(octets)
}

/// Appends an owner in lower case and then the octets, all or nothing.
pub(crate) fn compose_canonical_head<N: ToName, Target: Composer>(
    owner: &N,
    octets: &[u8],
    target: &mut Target,
) -> Result<(), AppendError>
    ensures ok { OnOk result (Target.list target.new ≡ Target.list target.old ++ (wire (low (N.name owner.now)) ++ octets.now)) }
    ensures err { OnErr result (Target.list target.new ≡ Target.list target.old) }
    ensures known { Target.known target.new ≡ Target.known target.old }
    ensures short { result ≡ Err ShortBuf → IsPast (Target.bound target.old)
        (length (Target.list target.old ++ (wire (low (N.name owner.now)) ++ octets.now))) }
    ensures not_bad { result ≡ Err BadLength → ⊥ }
    ensures same_bound { Target.bound target.new ≡ Target.bound target.old }
    ensures stays { Target.stays target.old target.new }
{
    let len = target.octets().len();
    match append_canonical_head(owner, octets, target) {
        Ok(()) => Ok(()),
        Err(error) => {
            target.truncate(len);
            Err(error)
        }
    }
}
