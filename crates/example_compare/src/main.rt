//! Zones compared by their canonical octets.
//!
//! Says of each file after the first whether it has the same zone: the order of records, records that are there twice
//! and ASCII case in names do not count. To run it: `cd crates/example_compare &&
//! rt try -- data/one.zone data/reordered.zone data/changed.zone`.
#![tactic(auto)]

use anyhow::{Context, Result};
use std::{env, fs};
use zonewire::{Class, Zone};

/// Returns the canonical octets of the zone in a file.
fn canonical_octets(rt: &HostRuntime, path: &str) -> Result<Vec<u8>> {
    let text = fs::read(rt, path)?;
    let zone = Zone::from_text(rt.alloc(), text, None, Class::IN)?;
    Ok(zone.canonical(rt.alloc())?)
}

fn main(rt: HostRuntime) -> Result<()> {
    let mut paths = env::args(&rt)?.skip(1);
    let first = paths.next().context("a file is missing")?;
    let octets = canonical_octets(&rt, first.as_str())?;
    for path in paths {
        if canonical_octets(&rt, path.as_str())? == octets {
            println!(rt; "{path}: the same zone")?;
        } else {
            println!(rt; "{path}: another zone")?;
        }
    }
    Ok(())
}
