//! Writing records into messages.
ghost use Rattle.std.specs.Prelude.{◌≡◌, ◌≤◌, ◌<◌, ◌++◌, ℕ, List, Err, length, OnOk, OnErr};
ghost use Rattle.dns_octets.specs.Builder.{GrowsTo, IsPast};
ghost use Rattle.dns_octets.specs.declared.error.AppendError.TheVariants.{ShortBuf, BadLength};
ghost use Rattle.dns_name.specs.Page.{write};
ghost use Rattle.dns_name.specs.Page.Parts.{End, Octets, Named};
ghost use Rattle.dns_name.specs.RecordData.{page_of};
ghost use Rattle.dns_header.specs.Head.{fixed_octets};
ghost use Rattle.dns_header.specs.Written.{Written, parts_of, data_length};

mod canonical;
mod records;

pub(crate) use canonical::{compose_canonical_head, compose_canonical_parts};
use dns_name::{AppendError, Class, ComposeRecordData, Composer, Rtype, ToName, Ttl};

/// A record that can be written into a message.
pub trait ComposeRecord {
    ghost written: { Self → Written };

    /// Appends the record, all or nothing: its owner, which may be written with a pointer, its type, class and TTL, and
    /// its data after its length (RFC 1035 3.2.1). Fails with `ShortBuf` only if the target is too full, with
    /// `BadLength` only if the data has more than 65,535 octets, and with `OutOfMemory` only if out of memory.
    fn compose_record<Target: Composer>(&self, target: &mut Target) -> Result<(), AppendError>
        ensures ok { OnOk result (page_of (Target.list target.new) (Target.known target.new)
            ≡ write Target.spelling (page_of (Target.list target.old) (Target.known target.old)) (parts_of (written self.now))) }
        ensures err { OnErr result ((Target.list target.new ≡ Target.list target.old)
            × (Target.known target.new ≡ Target.known target.old)) }
        ensures grows { GrowsTo (Target.list target.old) (Target.known target.old) (Target.list target.new)
            (Target.known target.new) }
        ensures short { result ≡ Err ShortBuf → IsPast (Target.bound target.old)
            (length (write Target.spelling (page_of (Target.list target.old) (Target.known target.old))
            (parts_of (written self.now))).octets) }
        ensures bad { result ≡ Err BadLength → 65535 < data_length Target.spelling
            (page_of (Target.list target.old) (Target.known target.old)) (written self.now) }
        ensures counts { OnOk result (data_length Target.spelling
            (page_of (Target.list target.old) (Target.known target.old)) (written self.now) ≤ 65535) }
        ensures same_bound { Target.bound target.new ≡ Target.bound target.old }
        ensures stays { Target.stays target.old target.new };
}

/// Appends the record with these fields, all or nothing.
pub(crate) fn compose_parts<N: ToName, Data: ComposeRecordData, Target: Composer>(
    owner: &N,
    class: Class,
    ttl: Ttl,
    rdata: &Data,
    target: &mut Target,
) -> Result<(), AppendError>
    ensures ok { OnOk result (page_of (Target.list target.new) (Target.known target.new)
        ≡ write Target.spelling (page_of (Target.list target.old) (Target.known target.old)) (parts_of (record { owner = N.name owner.now; rtype = Data.rtype rdata.now; class = class; ttl = ttl; rdata = Data.parts rdata.now }))) }
    ensures err { OnErr result ((Target.list target.new ≡ Target.list target.old)
        × (Target.known target.new ≡ Target.known target.old)) }
    ensures grows { GrowsTo (Target.list target.old) (Target.known target.old) (Target.list target.new)
        (Target.known target.new) }
    ensures short { result ≡ Err ShortBuf → IsPast (Target.bound target.old)
        (length (write Target.spelling (page_of (Target.list target.old) (Target.known target.old))
        (parts_of (record { owner = N.name owner.now; rtype = Data.rtype rdata.now; class = class; ttl = ttl; rdata = Data.parts rdata.now }))).octets) }
    ensures bad { result ≡ Err BadLength → 65535 < data_length Target.spelling
        (page_of (Target.list target.old) (Target.known target.old)) (record { owner = N.name owner.now; rtype = Data.rtype rdata.now; class = class; ttl = ttl; rdata = Data.parts rdata.now }) }
    ensures counts { OnOk result (data_length Target.spelling
        (page_of (Target.list target.old) (Target.known target.old)) (record { owner = N.name owner.now; rtype = Data.rtype rdata.now; class = class; ttl = ttl; rdata = Data.parts rdata.now }) ≤ 65535) }
    ensures same_bound { Target.bound target.new ≡ Target.bound target.old }
    ensures stays { Target.stays target.old target.new }
{
    let len = target.octets().len();
    match append_parts(owner, class, ttl, rdata, target) {
        Ok(()) => Ok(()),
        Err(error) => {
            target.truncate(len);
            Err(error)
        }
    }
}

/// Appends the record with these fields, or as much of it as there is room for.
fn append_parts<N: ToName, Data: ComposeRecordData, Target: Composer>(
    owner: &N,
    class: Class,
    ttl: Ttl,
    rdata: &Data,
    target: &mut Target,
) -> Result<(), AppendError>
    ensures ok { OnOk result (page_of (Target.list target.new) (Target.known target.new)
        ≡ write Target.spelling (page_of (Target.list target.old) (Target.known target.old)) (parts_of (record { owner = N.name owner.now; rtype = Data.rtype rdata.now; class = class; ttl = ttl; rdata = Data.parts rdata.now }))) }
    ensures grows { GrowsTo (Target.list target.old) (Target.known target.old) (Target.list target.new)
        (Target.known target.new) }
    ensures short { result ≡ Err ShortBuf → IsPast (Target.bound target.old)
        (length (write Target.spelling (page_of (Target.list target.old) (Target.known target.old))
        (parts_of (record { owner = N.name owner.now; rtype = Data.rtype rdata.now; class = class; ttl = ttl; rdata = Data.parts rdata.now }))).octets) }
    ensures bad { result ≡ Err BadLength → 65535 < data_length Target.spelling
        (page_of (Target.list target.old) (Target.known target.old)) (record { owner = N.name owner.now; rtype = Data.rtype rdata.now; class = class; ttl = ttl; rdata = Data.parts rdata.now }) }
    ensures counts { OnOk result (data_length Target.spelling
        (page_of (Target.list target.old) (Target.known target.old)) (record { owner = N.name owner.now; rtype = Data.rtype rdata.now; class = class; ttl = ttl; rdata = Data.parts rdata.now }) ≤ 65535) }
    ensures same_bound { Target.bound target.new ≡ Target.bound target.old }
    ensures stays { Target.stays target.old target.new }
{
    append_head(owner, &fixed(rdata.rtype(), class, ttl), target)?;
    rdata.compose_len_rdata(target)
}

/// Appends an owner, which may be written with a pointer, and then the octets as they are, all or nothing. Fails with `ShortBuf`
/// only if the target is too full, and with `OutOfMemory` only if out of memory.
pub fn compose_head<N: ToName, Target: Composer>(
    owner: &N,
    octets: &[u8],
    target: &mut Target,
) -> Result<(), AppendError>
    ensures ok { OnOk result (page_of (Target.list target.new) (Target.known target.new)
        ≡ write Target.spelling (page_of (Target.list target.old) (Target.known target.old)) (Named (N.name owner.now) (Octets octets.now End))) }
    ensures err { OnErr result ((Target.list target.new ≡ Target.list target.old)
        × (Target.known target.new ≡ Target.known target.old)) }
    ensures grows { GrowsTo (Target.list target.old) (Target.known target.old) (Target.list target.new)
        (Target.known target.new) }
    ensures short { result ≡ Err ShortBuf → IsPast (Target.bound target.old)
        (length (write Target.spelling (page_of (Target.list target.old) (Target.known target.old))
        (Named (N.name owner.now) (Octets octets.now End))).octets) }
    ensures not_bad { result ≡ Err BadLength → ⊥ }
    ensures same_bound { Target.bound target.new ≡ Target.bound target.old }
    ensures stays { Target.stays target.old target.new }
{
    let len = target.octets().len();
    match append_head(owner, octets, target) {
        Ok(()) => Ok(()),
        Err(error) => {
            target.truncate(len);
            Err(error)
        }
    }
}

/// Appends an owner and then the octets, or as much of them as there is room for.
fn append_head<N: ToName, Target: Composer>(
    owner: &N,
    octets: &[u8],
    target: &mut Target,
) -> Result<(), AppendError>
    ensures ok { OnOk result (page_of (Target.list target.new) (Target.known target.new)
        ≡ write Target.spelling (page_of (Target.list target.old) (Target.known target.old)) (Named (N.name owner.now) (Octets octets.now End))) }
    ensures grows { GrowsTo (Target.list target.old) (Target.known target.old) (Target.list target.new)
        (Target.known target.new) }
    ensures short { result ≡ Err ShortBuf → IsPast (Target.bound target.old)
        (length (write Target.spelling (page_of (Target.list target.old) (Target.known target.old))
        (Named (N.name owner.now) (Octets octets.now End))).octets) }
    ensures not_bad { result ≡ Err BadLength → ⊥ }
    ensures same_bound { Target.bound target.new ≡ Target.bound target.old }
    ensures stays { Target.stays target.old target.new }
{
    target.append_compressed_name(owner)?;
    target.append_slice(octets)
}

/// Returns the octets of the type, the class and the TTL.
pub(crate) fn fixed(rtype: Rtype, class: Class, ttl: Ttl) -> [u8; 8]
    ensures { result ≡ fixed_octets rtype class ttl }
{
    let [a, b] = rtype.to_int().to_be_bytes();
    let [c, d] = class.to_int().to_be_bytes();
    let [e, f, g, h] = ttl.as_secs().to_be_bytes();
    [a, b, c, d, e, f, g, h]
}
