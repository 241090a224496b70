//! A zone file read entry by entry.
//!
//! Shows each record and each file that is included, and why an entry cannot be read: its line, and the reason. Reading goes
//! on after it. To run it: `cd crates/example_entries && rt try < stdin`.
#![tactic(auto)]

use dns_name::{Class, Name};
use dns_zonefile::{Entry, Error, Zonefile};
use std::alloc::Global;
use std::io;

/// Returns a reader of a zone file. Names are relative to `example.com`, unless the text says otherwise.
fn reader_of(alloc: Global, text: &str) -> anyhow::Result<Zonefile> {
    let mut zonefile = Zonefile::new(alloc);
    zonefile.set_origin(Name::vec_from_str(alloc, "example.com.")?);
    zonefile.set_default_class(Class::IN);
    zonefile.extend_from_slice(text.as_bytes())?;
    Ok(zonefile)
}

/// Shows what a reader returned, and returns whether there may be more.
fn show(rt: &impl Print, next: &Result<Option<Entry>, Error>) -> io::Result<bool> {
    match next {
        Ok(Some(Entry::Record(record))) => println!(rt; "{record}")?,
        Ok(Some(Entry::Include { path, .. })) => println!(rt; "includes {path}")?,
        Ok(None) => return Ok(false),
        Err(error) => println!(rt; "line {}: {}", error.line(), error.reason())?,
    }
    Ok(true)
}

/// Shows the next entry, or why it cannot be read. Returns whether there may be another one.
fn show_next(rt: &impl Print, zonefile: &mut Zonefile) -> io::Result<bool> {
    show(rt, &zonefile.next_entry())
}

fn main(rt: HostRuntime) -> anyhow::Result<()> {
    let text = io::read_to_string(rt.alloc(), rt.reader())?;
    let mut zonefile = reader_of(rt.alloc(), text.as_str())?;
    for _ in 0..u64::MAX {
        if !show_next(&rt, &mut zonefile)? {
            break;
        }
        zonefile.pass_over()?;
    }
    println!(rt; "entries: {}", zonefile.entry_number())?;
    Ok(())
}
