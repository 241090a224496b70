//! The text of zones, from files or standard input.

use crate::fault::Fault;
use crate::progress::{tell, wipe};
use std::alloc::Global;
use std::fs;
use std::fs::File;
use std::io::{BufRead, BufReader, ErrorKind, Read};
use tool_words::{Reading, STANDARD_INPUT};
use zone::{Zone, ZoneError};
use zone_forms::{FormError, Rewriter, general_rows};

/// The number of octets that are read at a time. More are if more wait for the rest of their row.
const PIECE_LEN: usize = 65536;

/// Reads the octets of the file, or of standard input if the file is `-`.
pub(crate) fn read_text<'a>(rt: &HostRuntime, file: &'a str) -> Result<Vec<u8>, Fault<'a>> {
    let text = if file == STANDARD_INPUT {
        let mut text = Vec::new(rt.alloc());
        rt.stdin().read_to_end(&mut text).map(|_| text)
    } else {
        fs::read(rt, file)
    };
    text.map_err(|error| Fault::of_read(file, error))
}

/// A zone that was read from a file.
#[derive(Drop)]
pub(crate) struct ZoneRead {
    pub(crate) zone: Zone,
    /// The number of octets of its text.
    pub(crate) text_len: usize,
}

/// Reads the zone whose text is in the file, or in standard input if the file is `-`. Data of further types is read in
/// general form and in presentation form.
pub(crate) fn read_zone<'a>(
    rt: &HostRuntime,
    file: &'a str,
    reading: &Reading,
) -> Result<ZoneRead, Fault<'a>> {
    let text = read_text(rt, file)?;
    let text_len = text.len();
    let is_told = tell(rt, text_len, "checking", file);
    let zone = zone_of(rt.alloc(), text, reading);
    wipe(rt, is_told);
    let zone = zone.map_err(|error| Fault::of_zone(file, error))?;
    Ok(ZoneRead { zone, text_len })
}

/// Returns the zone of the text. Only if an entry does not read, the text is read once more, with the data of further types in
/// general form. Its entries keep their numbers.
fn zone_of(alloc: Global, text: Vec<u8>, reading: &Reading) -> Result<Zone, ZoneError> {
    let origin = reading.origin_ref();
    match Zone::read(alloc, &text, origin.as_ref(), reading.class) {
        Err(ZoneError::Text(_)) => {}
        read => return read,
    }
    let general = general_rows(alloc, &text, origin.as_ref(), reading.class)?;
    drop(text);
    Zone::from_text(alloc, general, origin.as_ref(), reading.class)
}

/// Returns the text of the file, or of standard input if the file is `-`, as the rewriter puts it. The text is read in pieces.
pub(crate) fn rewritten_file<'a>(
    rt: &HostRuntime,
    file: &'a str,
    rewriter: Rewriter,
) -> Result<Vec<u8>, Fault<'a>> {
    if file == STANDARD_INPUT {
        return rewritten_input(rt.alloc(), file, &mut rt.stdin(), rewriter);
    }
    let mut input = File::open(rt, file).map_err(|error| Fault::of_read(file, error))?;
    rewritten_input(rt.alloc(), file, &mut input, rewriter)
}

/// Returns the text of the input, which is the file's, as the rewriter puts it.
fn rewritten_input<'a, R: Read>(
    alloc: Global,
    file: &'a str,
    input: &mut R,
    mut rewriter: Rewriter,
) -> Result<Vec<u8>, Fault<'a>> {
    let mut out = Vec::new(alloc);
    let buffered = BufReader::with_capacity(alloc, PIECE_LEN, input);
    let mut input = buffered.map_err(|error| Fault::of_read(file, error))?;
    for _ in 0..u64::MAX {
        let waiting = rewriter.pending();
        let fed = if waiting > PIECE_LEN {
            feed_long(alloc, file, &mut input, waiting, &mut rewriter, &mut out)?
        } else {
            feed_buffer(file, &mut input, &mut rewriter, &mut out)?
        };
        if !fed {
            break;
        }
    }
    in_file(file, rewriter.finish(&mut out))?;
    Ok(out)
}

/// Feeds what the next read of the input gives. Returns false at its end.
fn feed_buffer<'a, R: BufRead>(
    file: &'a str,
    input: &mut R,
    rewriter: &mut Rewriter,
    out: &mut Vec<u8>,
) -> Result<bool, Fault<'a>> {
    let piece = match input.fill_buf() {
        Ok(piece) => piece,
        Err(error) if error.kind() == ErrorKind::Interrupted => return Ok(true),
        Err(error) => return Err(Fault::of_read(file, error)),
    };
    in_file(file, rewriter.feed(piece, out))?;
    let len = piece.len();
    input.consume(len);
    Ok(len > 0)
}

/// Feeds as many octets of the input as wait for the rest of their row, or fewer at its end, where it returns false.
fn feed_long<'a, R: Read>(
    alloc: Global,
    file: &'a str,
    input: &mut R,
    len: usize,
    rewriter: &mut Rewriter,
    out: &mut Vec<u8>,
) -> Result<bool, Fault<'a>> {
    let mut piece = Vec::new(alloc);
    let read = input.take(len as u64).read_to_end(&mut piece);
    read.map_err(|error| Fault::of_read(file, error))?;
    in_file(file, rewriter.feed(&piece, out))?;
    Ok(piece.len() == len)
}

/// Returns the value, or why the text of the file is not rewritten.
pub(crate) fn in_file<'a, T>(
    file: &'a str,
    rewritten: Result<T, FormError>,
) -> Result<T, Fault<'a>> {
    rewritten.map_err(|error| Fault::of_form(file, error))
}
