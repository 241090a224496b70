//! Receivers that are fed a stream in every way.
use rows::{Answer, Row, RowError};
use std::alloc::Global;
use zonewire::{DisplayKind, ReceiveError, Receiver};

/// How many places at either end a long stream is cut at, too.
const NEAR: usize = 4;
/// How many octets a stream has at most that is cut at each place.
const SHORT: usize = 1024;
/// Which places a longer stream is cut at: the multiples of this.
const EVERY: usize = 29;

/// What a receiver makes of a stream.
#[derive(PartialEq, Drop)]
struct Heard {
    /// How many octets it takes; 0 if it refuses a message.
    taken: usize,
    is_done: bool,
    /// The printed text of its zone, or why there is none.
    zone: Result<Vec<u8>, ReceiveError>,
}

/// Answers `Receiver QUERY STREAM`: the number of octets that are taken, whether they are a transfer, and its zone.
///
/// The stream is fed whole, octet by octet, and cut once at each place, with empty pieces between: at the first and the
/// last places and at each multiple of `EVERY`, if it is longer than `SHORT`. A row has no answer if these results differ.
pub fn answer(alloc: Global, row: &mut Row<'_>, out: &mut Answer) -> Result<(), RowError> {
    let query = row.octets(alloc)?;
    let stream = row.octets(alloc)?;
    let every = if stream.len() > SHORT { EVERY } else { 1 };
    let heard = heard_everywhere(alloc, query.as_slice(), stream.as_slice(), every)?;
    show(&heard, false, out)
}

/// Answers `Receiver::long QUERY EVERY FRONT PIECE STEP COUNT BACK` in the same way, with the number of octets of the
/// zone's text. The stream is FRONT, then the piece `COUNT` times, then BACK. The last two octets of each piece are a number
/// that is greater by `STEP` than that of the one before.
///
/// The stream is cut at the first and the last places, and at each place between them that is a multiple of `EVERY`.
pub fn answer_long(alloc: Global, row: &mut Row<'_>, out: &mut Answer) -> Result<(), RowError> {
    let query = row.octets(alloc)?;
    let every = row.value()?;
    let mut stream = row.octets(alloc)?;
    let mut piece = row.octets(alloc)?;
    let step = row.value()?;
    for _ in 0..row.value::<u32>()? {
        stream.extend_from_slice(piece.as_slice())?;
        if let Some(last) = piece.as_mut_slice().last_chunk_mut::<2>() {
            *last = u16::from_be_bytes(*last).wrapping_add(step).to_be_bytes();
        }
    }
    stream.extend_from_slice(row.octets(alloc)?.as_slice())?;
    let heard = heard_everywhere(alloc, query.as_slice(), stream.as_slice(), every)?;
    show(&heard, true, out)
}

/// Answers `Receiver::fed QUERY FRONT PIECE COUNT BACK` as `Receiver` does. The receiver is fed FRONT, the piece
/// `COUNT` times, and BACK.
pub fn answer_fed(alloc: Global, row: &mut Row<'_>, out: &mut Answer) -> Result<(), RowError> {
    let query = row.octets(alloc)?;
    let front = row.octets(alloc)?;
    let piece = row.octets(alloc)?;
    let count = row.value()?;
    let back = row.octets(alloc)?;
    let mut receiver = match Receiver::new(alloc, query.as_slice()) {
        Ok(receiver) => receiver,
        Err(error) => return out.refused(&error),
    };
    match fed_again(
        &mut receiver,
        front.as_slice(),
        piece.as_slice(),
        count,
        back.as_slice(),
    ) {
        Ok(taken) => show(&heard_of(alloc, receiver, taken)?, false, out),
        Err(error) => out.refused(&error),
    }
}

/// Feeds octets, a piece `count` times, and octets. Returns the number of octets that are taken.
fn fed_again(
    receiver: &mut Receiver,
    front: &[u8],
    piece: &[u8],
    count: u32,
    back: &[u8],
) -> Result<usize, ReceiveError> {
    let mut taken = receiver.feed(front)?;
    for _ in 0..count {
        taken = taken.saturating_add(receiver.feed(piece)?);
    }
    Ok(taken.saturating_add(receiver.feed(back)?))
}

/// Writes what a receiver makes of a stream, with the text of the zone, or the number of its octets.
fn show(heard: &Heard, is_long: bool, out: &mut Answer) -> Result<(), RowError> {
    match &heard.zone {
        Ok(text) => {
            out.shown(&heard.taken)?;
            out.shown(&heard.is_done)?;
            if is_long {
                out.shown(&text.len())
            } else {
                out.text(text.as_slice())
            }
        }
        Err(ReceiveError::Unfinished) => {
            out.shown(&heard.taken)?;
            out.shown(&heard.is_done)?;
            out.refused(&ReceiveError::Unfinished)
        }
        Err(error) => out.refused(error),
    }
}

/// Returns what a receiver makes of the stream whole, and fails if it makes another thing of it octet by octet, or cut
/// once.
fn heard_everywhere(
    alloc: Global,
    query: &[u8],
    stream: &[u8],
    every: usize,
) -> Result<Heard, RowError> {
    let whole = heard_in(alloc, query, stream, 0, stream.len())?;
    for cut in 0..stream.len() {
        let is_near = cut < NEAR || stream.len() - cut < NEAR;
        if !is_near && cut.checked_rem(every) != Some(0) {
            continue;
        }
        let len = if cut == 0 { 1 } else { stream.len() };
        if heard_in(alloc, query, stream, cut, len)? != whole {
            return Err(RowError::BadWord);
        }
    }
    Ok(whole)
}

/// Returns what a receiver makes of the stream in these pieces. Fails if it does not keep an error.
fn heard_in(
    alloc: Global,
    query: &[u8],
    stream: &[u8],
    cut: usize,
    len: usize,
) -> Result<Heard, RowError> {
    let mut receiver = match Receiver::new(alloc, query) {
        Ok(receiver) => receiver,
        Err(error) => return refused(error),
    };
    match fed(&mut receiver, stream, cut, len) {
        Ok(taken) => heard_of(alloc, receiver, taken),
        Err(error) if is_kept(receiver, stream, error) => refused(error),
        Err(_) => Err(RowError::BadWord),
    }
}

/// Feeds the octets up to the cut, and then the others in pieces of `len`, each between two empty pieces. Returns the
/// number of octets that are taken.
pub fn fed(
    receiver: &mut Receiver,
    stream: &[u8],
    cut: usize,
    len: usize,
) -> Result<usize, ReceiveError> {
    let (front, back) = stream.split_at_checked(cut).unwrap_or((stream, &[]));
    let mut taken = receiver.feed(front)?;
    for piece in back.chunks(len.max(1)) {
        taken = taken.saturating_add(receiver.feed(&[])?);
        taken = taken.saturating_add(receiver.feed(piece)?);
        taken = taken.saturating_add(receiver.feed(&[])?);
    }
    Ok(taken)
}

/// Returns what a receiver has that has not failed.
fn heard_of(alloc: Global, receiver: Receiver, taken: usize) -> Result<Heard, RowError> {
    let is_done = receiver.is_done();
    let zone = match receiver.into_zone() {
        Ok(zone) => Ok(zone.print(alloc, DisplayKind::Simple)?),
        Err(error) => Err(error),
    };
    Ok(Heard {
        taken,
        is_done,
        zone,
    })
}

/// Returns what a receiver has that has failed.
fn refused(error: ReceiveError) -> Result<Heard, RowError> {
    match error {
        ReceiveError::OutOfMemory => Err(RowError::OutOfMemory),
        _ => Ok(Heard {
            taken: 0,
            is_done: false,
            zone: Err(error),
        }),
    }
}

/// Returns whether a receiver keeps the error: it returns it for an empty piece, for the whole stream and instead of a
/// zone, and it is not done.
fn is_kept(mut receiver: Receiver, stream: &[u8], error: ReceiveError) -> bool {
    for piece in [&[], stream] {
        if receiver.feed(piece) != Err(error) || receiver.is_done() {
            return false;
        }
    }
    receiver.into_zone().err() == Some(error)
}
