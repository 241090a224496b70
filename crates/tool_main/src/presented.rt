//! Records with data of further types in presentation form.
ghost use Rattle.std.specs.Prelude.{◌≤◌, length};

use crate::fault::Fault;
use crate::input::in_file;
use dns_name::Class;
use dns_text::DisplayKind;
use std::alloc::{AllocError, Global};
use zone::Zone;
use zone_forms::{FormError, present};
use zone_tool::sorted;

/// Returns the lines of a difference with data of further types in presentation form. Each line is a sign and a record of the
/// class. Fails if out of memory.
pub(crate) fn presented_difference(
    alloc: Global,
    lines: &[u8],
    class: Class,
) -> Result<Vec<u8>, FormError> {
    let mut out = Vec::new(alloc);
    for line in lines.split_inclusive(|&octet| octet == b'\n') {
        let Some((&sign, record)) = line.split_first() else {
            continue;
        };
        let record = present(alloc, record, None, class, DisplayKind::Simple)?;
        out.push(sign).map_err(AllocError::from)?;
        out.extend_from_slice(&record)?;
    }
    Ok(out)
}

/// Returns the zone of the file in canonical order and in the layout, with data of further types in presentation form.
pub(crate) fn presented_sorted<'a>(
    alloc: Global,
    file: &'a str,
    zone: Zone,
    layout: DisplayKind,
) -> Result<Vec<u8>, Fault<'a>> {
    let class = zone.class();
    let presented = match layout {
        DisplayKind::Multiline => {
            let lines = sorted(alloc, zone, DisplayKind::Simple)?;
            let read = Zone::read(alloc, &lines, None, class);
            let zone = read.map_err(|error| Fault::of_zone(file, error))?;
            presented_records(alloc, &lines, &sorted(alloc, zone, layout)?, class)
        }
        _ => present(alloc, &sorted(alloc, zone, layout)?, None, class, layout),
    };
    in_file(file, presented)
}

/// Returns records, which are a line each, in several lines: those with data of further types with their fields, and the others
/// as they are laid out. Inside the parentheses of unknown data no fields could be laid out. Fails if out of memory.
fn presented_records(
    alloc: Global,
    lines: &[u8],
    laid_out: &[u8],
    class: Class,
) -> Result<Vec<u8>, FormError> {
    let mut out = Vec::new(alloc);
    let mut left = laid_out;
    for line in lines.split_inclusive(|&octet| octet == b'\n') {
        let (record, behind) = left.split_at(record_len(left));
        left = behind;
        let shown = present(alloc, line, None, class, DisplayKind::Multiline)?;
        let text = if shown.as_slice() == line {
            record
        } else {
            shown.as_slice()
        };
        out.extend_from_slice(text)?;
    }
    Ok(out)
}

/// Returns the length of the first record of a text in which each is laid out in several lines: up to the line of its closing
/// parenthesis.
fn record_len(text: &[u8]) -> usize
    ensures { result ≤ length text.now }
{
    let mut len: usize = 0;
    for line in text.split_inclusive(|&octet| octet == b'\n') {
        len = len.saturating_add(line.len());
        if line == b"        )\n".as_slice() {
            break;
        }
    }
    len.min(text.len())
}
