//! The tasks of the program, performed.

use crate::color::{colored_difference, is_colored};
use crate::explaining::findings_of;
use crate::fault::Fault;
use crate::finding_text::finding_text;
use crate::input::{ZoneRead, in_file, read_text, read_zone, rewritten_file};
use crate::presented::{presented_difference, presented_sorted};
use crate::progress::{tell, wipe};
use crate::table::table_of;
use dns_text::DisplayKind;
use std::io::Write;
use tool_words::{ColorChoice, Reading, Task};
use zone_forms::{Form, Rewriter};
use zone_tool::{Selection, difference, framed_query, sorted};

/// Performs the task. Returns false if it writes a difference, or why a text is no zone's.
pub(crate) fn perform<'a>(rt: &HostRuntime, task: Task<'a>) -> Result<bool, Fault<'a>> {
    match task {
        Task::Explain {
            file,
            reading,
            all,
            color,
        } => explain_file(rt, file, &reading, all, color),
        Task::Diff {
            old,
            new,
            reading,
            without,
            ignore_ttl,
            ignore_serial,
            present,
            color,
        } => {
            let selection = Selection {
                without,
                ignore_ttl,
                ignore_serial,
            };
            diff_files(rt, old, new, &reading, &selection, present, color)
        }
        Task::Sort {
            file,
            reading,
            present,
            layout,
        } => sort_file(rt, file, &reading, present, layout),
        Task::Stats {
            file,
            reading,
            present,
        } => count_file(rt, file, &reading, present),
        Task::General { file, reading } => rewrite_file(rt, file, &reading, Form::General),
        Task::Present {
            file,
            reading,
            layout,
        } => rewrite_file(rt, file, &reading, Form::Presentation(layout)),
        Task::Query { apex, class, id } => {
            let query = framed_query(rt.alloc(), id, class, &apex.for_ref())?;
            write_all(rt, query.as_slice())?;
            Ok(true)
        }
    }
}

/// Writes why the text of the file is no zone's: the first fault, or all of them. Returns false if it writes something.
fn explain_file<'a>(
    rt: &HostRuntime,
    file: &'a str,
    reading: &Reading,
    all: bool,
    color: ColorChoice,
) -> Result<bool, Fault<'a>> {
    let text = read_text(rt, file)?;
    let is_told = tell(rt, text.len(), "checking", file);
    let findings = findings_of(rt.alloc(), &text, reading, all);
    wipe(rt, is_told);
    let findings = findings?;
    let colored = is_colored(rt, color);
    let mut shown = Vec::new(rt.alloc());
    for finding in findings.as_slice() {
        let one = finding_text(rt.alloc(), file, &text, finding, colored)?;
        shown.extend_from_slice(one.as_bytes())?;
    }
    write_all(rt, shown.as_slice())?;
    Ok(findings.is_empty())
}

/// Writes what changed between the zones of two files. Returns false if something did.
fn diff_files<'a>(
    rt: &HostRuntime,
    old: &'a str,
    new: &'a str,
    reading: &Reading,
    selection: &Selection,
    presents: bool,
    color: ColorChoice,
) -> Result<bool, Fault<'a>> {
    let before = read_zone(rt, old, reading)?;
    let after = read_zone(rt, new, reading)?;
    let len = before.text_len.max(after.text_len);
    let is_told = tell(rt, len, "comparing with", new);
    let lines = difference(rt.alloc(), &before.zone, &after.zone, selection);
    wipe(rt, is_told);
    let lines = if presents {
        let lines = presented_difference(rt.alloc(), &lines?, reading.class);
        in_file(new, lines)?
    } else {
        lines?
    };
    if is_colored(rt, color) {
        write_all(rt, colored_difference(rt.alloc(), &lines)?.as_slice())?;
    } else {
        write_all(rt, lines.as_slice())?;
    }
    Ok(lines.is_empty())
}

/// Writes the zone of the file in canonical order.
fn sort_file<'a>(
    rt: &HostRuntime,
    file: &'a str,
    reading: &Reading,
    presents: bool,
    layout: DisplayKind,
) -> Result<bool, Fault<'a>> {
    let ZoneRead { zone, text_len } = read_zone(rt, file, reading)?;
    let is_told = tell(rt, text_len, "sorting", file);
    let text = if presents {
        presented_sorted(rt.alloc(), file, zone, layout)
    } else {
        match sorted(rt.alloc(), zone, layout) {
            Ok(text) => Ok(text),
            Err(error) => Err(Fault::from(error)),
        }
    };
    wipe(rt, is_told);
    write_all(rt, text?.as_slice())?;
    Ok(true)
}

/// Writes the numbers of the zone of the file.
fn count_file<'a>(
    rt: &HostRuntime,
    file: &'a str,
    reading: &Reading,
    all_mnemonics: bool,
) -> Result<bool, Fault<'a>> {
    let read = read_zone(rt, file, reading)?;
    let is_told = tell(rt, read.text_len, "counting", file);
    let table = table_of(rt.alloc(), &read.zone, all_mnemonics);
    wipe(rt, is_told);
    write_all(rt, table?.as_bytes())?;
    Ok(true)
}

/// Writes the text of the file with data of further types in the form. Nothing is written if a row is no entry.
fn rewrite_file<'a>(
    rt: &HostRuntime,
    file: &'a str,
    reading: &Reading,
    form: Form,
) -> Result<bool, Fault<'a>> {
    let origin = reading.origin_ref();
    let rewriter = Rewriter::new(rt.alloc(), form, origin.as_ref(), reading.class)?;
    let text = rewritten_file(rt, file, rewriter)?;
    write_all(rt, text.as_slice())?;
    Ok(true)
}

/// Writes the octets to standard output.
fn write_all<'a>(rt: &HostRuntime, octets: &[u8]) -> Result<(), Fault<'a>> {
    rt.stdout().write_all(octets).map_err(|_| Fault::Write)
}
