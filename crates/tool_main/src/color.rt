//! Colours for terminals.

use std::alloc::{AllocError, Global};
use std::env;
use std::io::IsTerminal;
use tool_words::ColorChoice;

/// The escape sequences that begin a style (ECMA-48 8.3.117).
pub(crate) const BOLD: &str = "\x1b[1m";

pub(crate) const RED: &str = "\x1b[31m";

pub(crate) const GREEN: &str = "\x1b[32m";

/// The escape sequence that ends a style.
pub(crate) const PLAIN: &str = "\x1b[0m";

/// Returns whether standard output has colours.
pub(crate) fn is_colored(rt: &HostRuntime, choice: ColorChoice) -> bool {
    match choice {
        ColorChoice::Always => true,
        ColorChoice::Never => false,
        ColorChoice::Auto => rt.stdout().is_terminal() && !forbids_colors(rt),
    }
}

/// Returns whether the environment has a `NO_COLOR` that is not empty.
fn forbids_colors(rt: &HostRuntime) -> bool {
    env::var(rt, "NO_COLOR").is_ok_and(|value| !value.is_empty())
}

/// Returns the lines of a difference with colours: those that begin with `-` in red, and those with `+` in green. Fails if
/// out of memory.
pub(crate) fn colored_difference(alloc: Global, lines: &[u8]) -> Result<Vec<u8>, AllocError> {
    let mut out = Vec::new(alloc);
    for line in lines.split_inclusive(|&octet| octet == b'\n') {
        let style = if line.starts_with(b"-") { RED } else { GREEN };
        let text = line.strip_suffix(b"\n").unwrap_or(line);
        out.extend_from_slice(style.as_bytes())?;
        out.extend_from_slice(text)?;
        out.extend_from_slice(PLAIN.as_bytes())?;
        out.push(b'\n')?;
    }
    Ok(out)
}
