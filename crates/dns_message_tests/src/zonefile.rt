//! Tests of `dns_zonefile` and of the crates below it: names under an origin, rows that are scanned, and here readers
//! with enough memory, where each call that may allocate succeeds, and the texts of errors.
mod names;
mod octets;
mod rows;

use dns_entry_scanner::absolute;
use dns_name::{Class, Name, ToName};
use dns_zonefile::{Entry, Error, Zonefile};
use std::alloc::Global;
use std::test::Fail;

/// Returns the printed next entry, `end`, or its error.
fn next_of(alloc: Global, zonefile: &mut Zonefile) -> Result<String, Fail> {
    match zonefile.next_entry() {
        Ok(Some(entry)) => shown(alloc, &entry),
        Ok(None) => Ok(format!(in alloc; "end")?),
        Err(error) => told(alloc, &error),
    }
}

/// Returns the printed entry.
fn shown(alloc: Global, entry: &Entry) -> Result<String, Fail> {
    match entry {
        Entry::Record(record) => {
            let owner = record.owner().to_vec(alloc)?;
            Ok(format!(in alloc; "{} {}", owner, record.rtype())?)
        }
        Entry::Include { path, .. } => Ok(format!(in alloc; "include {}", path)?),
    }
}

/// Returns the text of an error.
fn told(alloc: Global, error: &Error) -> Result<String, Fail> {
    Ok(format!(in alloc;
        "{} {} {} {}",
        error,
        error.line(),
        error.reason(),
        error.is_memory()
    )?)
}

#[test]
fn entries(rt: HostRuntime) -> Result<(), Fail> {
    let alloc = rt.alloc();
    let mut zonefile = Zonefile::with_capacity(alloc, 64)?;
    zonefile.set_default_class(Class::IN);
    zonefile.set_origin(Name::vec_from_str(alloc, "a.")?);
    zonefile.extend_from_slice(b"x A 1.2.3.4\n$INCLUDE f\n")?;
    let record = next_of(alloc, &mut zonefile)?;
    let include = next_of(alloc, &mut zonefile)?;
    let end = next_of(alloc, &mut zonefile)?;
    assert!(rt; record.as_str() == "x.a. A");
    assert!(rt; include.as_str() == "include f");
    assert!(rt; end.as_str() == "end");
    assert!(rt; zonefile.entry_number() == 2);
    Ok(())
}

#[test]
fn errors(rt: HostRuntime) -> Result<(), Fail> {
    let alloc = rt.alloc();
    let mut text = Vec::new(alloc);
    text.extend_from_slice(b"\n\nx A 1.2.3.4\n")?;
    let mut zonefile = Zonefile::from_vec(alloc, text);
    let first = next_of(alloc, &mut zonefile)?;
    zonefile.extend_from_slice(b"$INCLUDE f\n")?;
    let again = next_of(alloc, &mut zonefile)?;
    let why = "relative name without an origin";
    let told = format!(in alloc; "line 3: {} 3 {} false", why, why)?;
    assert!(rt; first == told);
    assert!(rt; again == told);
    assert!(rt; zonefile.entry_number() == 1);
    let mut empty = Zonefile::new(alloc);
    let end = next_of(alloc, &mut empty)?;
    assert!(rt; end.as_str() == "end");
    Ok(())
}

#[test]
fn absolute_names(rt: HostRuntime) -> Result<(), Fail> {
    let alloc = rt.alloc();
    let name = absolute(alloc, Name::vec_from_str(alloc, "b.a.")?)?;
    let flat = name.to_vec(alloc)?;
    assert!(rt; flat.as_slice() == b"\x01b\x01a\x00".as_slice());
    Ok(())
}
