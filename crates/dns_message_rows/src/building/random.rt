//! Random steps over a compressor: names and octets that are appended if they fit, and truncations.
//!
//! A fixed generator draws the steps. After each step a checksum takes in the octets of the target, and how some names
//! would be spelled after them. `tools/compressor_rows.py` computes the same from the rules of the spellings alone.
use arrayvec::ArrayVec;
use dns_compress::{HashCompressor, StaticCompressor, TreeCompressor};
use dns_name::{AppendError, Composer, Name};
use rows::{Answer, Row, RowError};
use std::alloc::Global;

/// The number of names that are tried after each step.
const PROBES: usize = 8;

/// The number of steps between two checksums that are written.
const STEPS_AT_ONCE: u32 = 250;

/// Takes random steps over a target of at most 256 octets.
pub fn over_array(alloc: Global, row: &mut Row<'_>, out: &mut Answer) -> Result<(), RowError> {
    let target: ArrayVec<u8, 256> = ArrayVec::new();
    match row.word()? {
        "static" => take_steps(alloc, StaticCompressor::new(target), row, out),
        "tree" => take_steps(alloc, TreeCompressor::new(alloc, target), row, out),
        "hash" => take_steps(alloc, HashCompressor::new(alloc, target), row, out),
        _ => Err(RowError::BadWord),
    }
}

/// Takes random steps over a vector.
pub fn over_vec(alloc: Global, row: &mut Row<'_>, out: &mut Answer) -> Result<(), RowError> {
    let target: Vec<u8> = Vec::new(alloc);
    match row.word()? {
        "static" => take_steps(alloc, StaticCompressor::new(target), row, out),
        "tree" => take_steps(alloc, TreeCompressor::new(alloc, target), row, out),
        "hash" => take_steps(alloc, HashCompressor::new(alloc, target), row, out),
        _ => Err(RowError::BadWord),
    }
}

/// Appends octets that no step changes, and takes steps after them. Writes the number of octets and the checksum after
/// every 250 steps.
fn take_steps<Target: Composer + Drop>(
    alloc: Global,
    mut target: Target,
    row: &mut Row<'_>,
    out: &mut Answer,
) -> Result<(), RowError> {
    let front = row.octets(alloc)?;
    if target.append_slice(front.as_slice()).is_err() {
        return Err(RowError::OutOfMemory);
    }
    let mut steps = Steps {
        target,
        front: front.len(),
        draws: Draws {
            state: row.value()?,
        },
        sum: Checksum {
            value: 2_166_136_261,
        },
    };
    for _ in 0..row.value::<u32>()? / STEPS_AT_ONCE {
        for _ in 0..STEPS_AT_ONCE {
            steps.take(alloc)?;
        }
        out.shown(&steps.target.octets().len())?;
        out.shown(&steps.sum.value)?;
    }
    Ok(())
}

/// The target of the steps, and what they have given so far.
#[derive(Drop)]
struct Steps<Target: Composer> {
    target: Target,
    /// The number of octets at the front that no step changes.
    front: usize,
    draws: Draws,
    sum: Checksum,
}

impl<Target: Composer> Steps<Target> {
    /// Takes a step, and adds its result to the checksum.
    fn take(&mut self, alloc: Global) -> Result<(), RowError> {
        let appended = match self.draws.below(32) {
            0 => self.truncate(),
            1 => self.append_octets(),
            _ => self.target.append_compressed_name(&self.draws.name(alloc)?),
        };
        self.sum.take(&[u8::from(is_refused(appended)?)]);
        if let Some(octets) = self.target.octets().get(self.front..) {
            self.sum.take(octets);
        }
        for _ in 0..PROBES {
            self.probe(alloc)?;
        }
        Ok(())
    }

    /// Truncates the target, or leaves it as it is.
    fn truncate(&mut self) -> Result<(), AppendError> {
        let len = self.target.octets().len().saturating_sub(self.front);
        let kept = self.draws.below(len.saturating_add(4));
        self.target.truncate(self.front.saturating_add(kept));
        Ok(())
    }

    /// Appends at most four octets.
    fn append_octets(&mut self) -> Result<(), AppendError> {
        match self.draws.below(4) {
            0 => self.target.append_slice(&[0]),
            1 => self.target.append_slice(&[1, 97, 0]),
            2 => self.target.append_slice(&[192, 0]),
            _ => self.target.append_slice(&[1, 2, 3, 4]),
        }
    }

    /// Appends a name, adds its octets to the checksum, and removes them again.
    fn probe(&mut self, alloc: Global) -> Result<(), RowError> {
        let len = self.target.octets().len();
        let name = self.draws.name(alloc)?;
        if is_refused(self.target.append_compressed_name(&name))? {
            self.sum.take(&[255]);
        }
        if let Some(spelled) = self.target.octets().get(len..) {
            self.sum.take(spelled);
        }
        self.target.truncate(len);
        Ok(())
    }
}

/// Returns whether an append is refused for want of room.
fn is_refused(appended: Result<(), AppendError>) -> Result<bool, RowError> {
    match appended {
        Ok(()) => Ok(false),
        Err(AppendError::OutOfMemory) => Err(RowError::OutOfMemory),
        Err(_) => Ok(true),
    }
}

/// Numbers that are drawn one after another (a linear congruential generator of 64 bits).
#[derive(Drop)]
struct Draws {
    state: u64,
}

impl Draws {
    /// Draws a number below the bound, or 0 if the bound is 0.
    fn below(&mut self, bound: usize) -> usize {
        self.state = self
            .state
            .wrapping_mul(6_364_136_223_846_793_005)
            .wrapping_add(1_442_695_040_888_963_407);
        let drawn = (self.state / 4_294_967_296) as usize;
        drawn.checked_rem(bound).unwrap_or(0)
    }

    /// Draws a name of at most four labels.
    fn name(&mut self, alloc: Global) -> Result<Name<Vec<u8>>, RowError> {
        let mut octets = Vec::new(alloc);
        for _ in 0..self.below(5) {
            octets.extend_from_slice(self.label())?;
        }
        octets.push(0)?;
        match Name::from_octets(octets) {
            Ok(name) => Ok(name),
            Err(_) => Err(RowError::BadWord),
        }
    }

    /// Draws a label, after its length.
    fn label(&mut self) -> &'static [u8] {
        match self.below(8) {
            0 => b"\x01a",
            1 => b"\x01A",
            2 => b"\x01b",
            3 => b"\x02ab",
            4 => b"\x02aB",
            5 => b"\x02[]",
            6 => b"\x02{}",
            _ => b"\x07example",
        }
    }
}

/// A checksum of octets that come one after another (FNV-1a of 32 bits).
#[derive(Drop)]
struct Checksum {
    value: u32,
}

impl Checksum {
    /// Adds the octets to the checksum.
    fn take(&mut self, octets: &[u8]) {
        for octet in octets {
            self.value = (self.value ^ u32::from(*octet)).wrapping_mul(16_777_619);
        }
    }
}
