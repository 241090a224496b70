//! What the program does, told while it lasts.

use std::io::IsTerminal;

/// Text of this length takes about a second. The clock can't be looked at within a call of the library.
const LONG_TEXT: usize = 32 << 20;

/// Goes back to the start of the line and wipes it (ECMA-48 8.3.41).
const WIPE: &str = "\r\x1b[K";

/// Tells on standard error what is done with the file, in place of what was told before, if standard error is a terminal and
/// work on a text of this length takes about a second or more. Returns whether it does.
pub(crate) fn tell(rt: &HostRuntime, octets: usize, doing: &str, file: &str) -> bool {
    let is_told = octets >= LONG_TEXT && rt.stderr().is_terminal();
    if is_told {
        let _ = eprint!(rt; "{WIPE}zonetool: {doing} {file}");
    }
    is_told
}

/// Wipes what was told last, if something was.
pub(crate) fn wipe(rt: &HostRuntime, is_told: bool) {
    if is_told {
        let _ = eprint!(rt; "{WIPE}");
    }
}
