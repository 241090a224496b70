//! The tokens of a row, scanned.
use dns_entry_scanner::{EntryScanner, RowScanner, TokenSpan, read_row};
use dns_scan::Scanner;
use std::test::Fail;

#[test]
fn gaps(rt: HostRuntime) -> Result<(), Fail> {
    let alloc = rt.alloc();
    let text = b"\"a\"\"b\"c\n";
    let mut spans: Vec<TokenSpan> = Vec::new(alloc);
    read_row(text, 0, &mut spans)?;
    let mut scanner: RowScanner<'_> = RowScanner::new(alloc, text, 0, spans.as_slice(), None);
    assert!(rt; !scanner.has_space());
    scanner.skip_token();
    assert!(rt; !scanner.has_space() && scanner.next_is_quoted());
    scanner.skip_token();
    assert!(rt; !scanner.has_space() && !scanner.next_is_quoted());
    Ok(())
}
