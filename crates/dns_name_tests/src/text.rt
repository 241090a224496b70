//! Tests of `dns_text`: layouts, documents of several pieces, names of several types, and scanners.
mod rows;
mod scan;
mod uncertain;

use dns_text::DisplayKind;
use std::test::Fail;

#[test]
fn layouts_are_compared(rt: HostRuntime) -> Result<(), Fail> {
    let kind = DisplayKind::Tabbed;
    assert!(rt; kind.clone()? == kind);
    assert!(rt; kind != DisplayKind::Simple && kind != DisplayKind::Multiline);
    Ok(())
}
