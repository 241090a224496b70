//! The octets of records, composed directly at the end of a vector, with enough memory.
use dns_name::{Class, ToName};
use dns_zonefile::{ComposedEntry, Zonefile};
use std::alloc::Global;
use std::test::Fail;

const TEXT: &[u8] = b"$ORIGIN a.\nb 60 A 1.2.3.4\n MX 10 c\n TXT x\n$INCLUDE f d\n";

/// Returns the octets of its records, after two other octets.
fn expected(alloc: Global) -> Result<Vec<u8>, Fail> {
    let mut octets = Vec::from_slice(alloc, b"hi")?;
    octets.extend_from_slice(
        b"\x01b\x01a\x00\x00\x01\x00\x01\x00\x00\x00\x3c\x00\x04\x01\x02\x03\x04",
    )?;
    octets.extend_from_slice(
        b"\x01b\x01a\x00\x00\x0f\x00\x01\x00\x00\x00\x3c\x00\x07\x00\x0a\x01c\x01a\x00",
    )?;
    octets.extend_from_slice(b"\x01b\x01a\x00\x00\x10\x00\x01\x00\x00\x00\x3c\x00\x02\x01x")?;
    Ok(octets)
}

/// Returns a reader of the text.
fn reader(alloc: Global) -> Result<Zonefile, Fail> {
    let mut zonefile = Zonefile::from_vec(alloc, Vec::from_slice(alloc, TEXT)?);
    zonefile.set_default_class(Class::IN);
    Ok(zonefile)
}

#[test]
fn octets(rt: HostRuntime) -> Result<(), Fail> {
    let alloc = rt.alloc();
    let mut zonefile = reader(alloc)?;
    let mut octets = Vec::from_slice(alloc, b"hi")?;
    for _ in 0..3u32 {
        let entry = zonefile.next_octets(&mut octets)?;
        assert!(rt; matches!(entry, Some(ComposedEntry::Record { .. })));
    }
    assert!(rt; octets.as_slice() == expected(alloc)?.as_slice());
    let Some(ComposedEntry::Include(file)) = zonefile.next_octets(&mut octets)? else {
        panic!(rt; "no include");
    };
    assert!(rt; file.path.as_str() == "f");
    let Some(origin) = &file.origin else {
        panic!(rt; "no origin");
    };
    assert!(rt; origin.as_slice() == b"\x01d\x01a\x00".as_slice());
    let end = zonefile.next_octets(&mut octets)?;
    assert!(rt; end.is_none());
    assert!(rt; octets.as_slice() == expected(alloc)?.as_slice());
    assert!(rt; zonefile.entry_number() == 5);
    Ok(())
}
