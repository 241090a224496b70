//! Streams with freely spelled names: a pointer may go to any place of a suffix of an earlier name in its message,
//! however it was chosen (RFC 1035 4.1.4).
//!
//! Nothing here depends on a compressor or on the receiver. The content of each message is known, so it is read by
//! comparing.
ghost use Rattle.std.specs.Prelude.{◌<◌, length, IfSome};
ghost use Rattle.std.specs.Iterator.{at_most};

use dns_name::{Class, Name, ParseError, Parser, Rtype, ShortInput};
use std::alloc::{AllocError, AllocFailed, Global};
use zonewire::ZoneRecord;

/// Why a stream is not made of free messages of the records.
#[derive(Clone, Copy, Debug, PartialEq, Eq)]
pub enum Flaw {
    /// The stream ends within a message.
    Frame,
    /// A message is longer than the limit.
    Long,
    /// The header is not one of an answer to the query, with one question and only answers.
    Header,
    /// A pointer goes to this place, but no suffix of an earlier name is there, or another suffix.
    Pointer(usize),
    /// The octets are not those of the question or of the record.
    Octets,
    /// Octets follow the last record of a message.
    Trailing,
    /// A message has no record, or the messages have fewer or more records than there are.
    Count,
    /// Out of memory.
    OutOfMemory,
}

impl From<ShortInput> for Flaw {
    fn from(_: ShortInput) -> Flaw {
        Flaw::Octets
    }
}

impl From<ParseError> for Flaw {
    fn from(_: ParseError) -> Flaw {
        Flaw::Octets
    }
}

impl From<AllocError> for Flaw {
    fn from(_: AllocError) -> Flaw {
        Flaw::OutOfMemory
    }
}

impl<T: Drop> From<AllocFailed<T>> for Flaw {
    fn from(_: AllocFailed<T>) -> Flaw {
        Flaw::OutOfMemory
    }
}

/// What a stream has to carry: the answers to a query, with these records in order.
#[derive(Drop)]
pub struct Transfer<'a> {
    pub id: u16,
    /// The octets of the name that is asked for.
    pub name: &'a [u8],
    pub class: Class,
    pub records: &'a [ZoneRecord<'a>],
    /// The largest number of octets that a message may have.
    pub max: usize,
}

/// A message: it has `count` records from index `first` on, and takes `len` octets.
#[derive(Clone, Copy)]
pub struct Carried {
    pub first: usize,
    pub count: usize,
    pub len: usize,
}

impl<'a> Transfer<'a> {
    /// Returns what each message of the stream carries. Fails with the first flaw of a message, or if records are
    /// missing.
    pub fn messages(&self, alloc: Global, stream: &'a [u8]) -> Result<Vec<Carried>, Flaw> {
        let mut messages = Vec::new(alloc);
        let mut first = 0usize;
        for message in Frames(stream) {
            let message = message?;
            let count = self.read(alloc, message, first)?;
            messages.push(Carried {
                first,
                count,
                len: message.len(),
            })?;
            first = first.saturating_add(count);
        }
        if first == self.records.len() {
            Ok(messages)
        } else {
            Err(Flaw::Count)
        }
    }

    /// Reads a message, and returns the number of its records, which begin at index `first`.
    fn read(&self, alloc: Global, message: &'a [u8], first: usize) -> Result<usize, Flaw> {
        if message.len() > self.max {
            return Err(Flaw::Long);
        }
        let mut reading = Reading {
            parser: Parser::from_ref(message),
            suffixes: Vec::new(alloc),
        };
        let count = reading.header(self.id)?;
        reading.question(self.name, self.class)?;
        let records = self.records.get(first..first.saturating_add(count));
        for record in records.ok_or(Flaw::Count)? {
            reading.record(record)?;
        }
        if reading.parser.remaining() == 0 {
            Ok(count)
        } else {
            Err(Flaw::Trailing)
        }
    }
}

/// The messages of a stream, each after its length in two octets (RFC 1035 4.2.2).
#[derive(Drop)]
struct Frames<'a>(&'a [u8]);

impl<'a> Iterator for Frames<'a> {
    type Item = Result<&'a [u8], Flaw>;

    ghost remaining = { λ s. at_most (length s.0.now) };

    fn next(&mut self) -> Option<Result<&'a [u8], Flaw>> {
        if self.0.is_empty() {
            return None;
        }
        match split_frame(self.0) {
            Some((message, behind)) => {
                self.0 = behind;
                Some(Ok(message))
            }
            None => {
                self.0 = &[];
                Some(Err(Flaw::Frame))
            }
        }
    }
}

/// Returns the first message of a stream, and what follows it. Returns None if the message is not whole.
fn split_frame(stream: &[u8]) -> Option<(&[u8], &[u8])>
    ensures shorter { IfSome result (λ it. length it.1.now < length stream.now) }
{
    let (len, behind) = stream.split_at_checked(2)?;
    let [high, low] = len else {
        return None;
    };
    behind.split_at_checked(usize::from(*high) * 256 + usize::from(*low))
}

/// The suffixes of a name's octets, the whole name first and the root last, each with its first label and the label's
/// length.
#[derive(Drop)]
struct Suffixes<'a>(&'a [u8]);

impl<'a> Iterator for Suffixes<'a> {
    type Item = (&'a [u8], &'a [u8]);

    ghost remaining = { λ s. at_most (length s.0.now) };

    fn next(&mut self) -> Option<(&'a [u8], &'a [u8])> {
        let suffix = self.0;
        let len = suffix.first()?;
        let (label, parent) = suffix.split_at_checked(usize::from(*len) + 1)?;
        self.0 = parent;
        Some((suffix, label))
    }
}

/// A suffix and its place: its octets, with every label written out.
#[derive(Clone, Copy)]
struct Suffix<'a> {
    place: usize,
    octets: &'a [u8],
}

/// A message that is read from its first octet on, and the suffixes of the names that were read, with their places.
#[derive(Drop)]
struct Reading<'a> {
    parser: Parser<'a>,
    suffixes: Vec<Suffix<'a>>,
}

impl<'a> Reading<'a> {
    /// Reads the header of an answer to the query with this ID, and returns the number of records that it counts (RFC
    /// 1035 4.1.1).
    fn header(&mut self, id: u16) -> Result<usize, Flaw> {
        let same_id = self.parser.parse_u16_be()? == id;
        let flags = self.parser.parse_u16_be()?;
        let questions = self.parser.parse_u16_be()?;
        let answers = self.parser.parse_u16_be()?;
        let others = self.parser.parse_u32_be()?;
        if !same_id || flags & KIND != RESPONSE || questions != 1 || others != 0 {
            return Err(Flaw::Header);
        }
        if answers == 0 {
            return Err(Flaw::Count);
        }
        Ok(usize::from(answers))
    }

    /// Reads the question for the transfer of a zone.
    fn question(&mut self, name: &'a [u8], class: Class) -> Result<(), Flaw> {
        self.name(name)?;
        self.octets(&Rtype::AXFR.to_int().to_be_bytes())?;
        self.octets(&class.to_int().to_be_bytes())
    }

    /// Reads the record: its owner, type, class and TTL, the length that its data has here, and the data.
    fn record(&mut self, record: &ZoneRecord<'a>) -> Result<(), Flaw> {
        self.name(record.owner().into_octets())?;
        self.octets(&record.rtype().to_int().to_be_bytes())?;
        self.octets(&record.class().to_int().to_be_bytes())?;
        self.octets(&record.ttl().as_secs().to_be_bytes())?;
        let len = self.parser.parse_u16_be()?;
        let before = self.parser.remaining();
        self.data(record.rtype(), record.data())?;
        if before.saturating_sub(self.parser.remaining()) == usize::from(len) {
            Ok(())
        } else {
            Err(Flaw::Octets)
        }
    }

    /// Reads the data of a record. These are its octets with every name written out.
    fn data(&mut self, rtype: Rtype, octets: &'a [u8]) -> Result<(), Flaw> {
        let mut data = Parser::from_ref(octets);
        let (front, names) = names_in(rtype);
        self.octets(data.parse_octets(front)?)?;
        for _ in 0..names {
            self.name(Name::parse(&mut data)?.into_octets())?;
        }
        self.octets(data.peek_all())
    }

    /// Reads these octets.
    fn octets(&mut self, octets: &[u8]) -> Result<(), Flaw> {
        if self.parser.parse_octets(octets.len())? == octets {
            Ok(())
        } else {
            Err(Flaw::Octets)
        }
    }

    /// Reads this name, label by label up to a pointer or the root, and notes the places of its suffixes.
    fn name(&mut self, name: &'a [u8]) -> Result<(), Flaw> {
        let earlier = self.suffixes.len();
        for (suffix, label) in Suffixes(name) {
            let place = self.parser.pos();
            if suffix != ROOT {
                self.suffixes.push(Suffix {
                    place,
                    octets: suffix,
                })?;
            }
            if let Some(target) = self.pointer()? {
                return self.pointed(earlier, target, suffix);
            }
            self.octets(label)?;
        }
        Ok(())
    }

    /// Reads the pointer that comes next, and returns its place. Reads nothing if no pointer comes next.
    fn pointer(&mut self) -> Result<Option<usize>, Flaw> {
        match self.parser.peek(1)? {
            [head] if *head >= POINTER => {
                Ok(Some(usize::from(self.parser.parse_u16_be()? % REACHED)))
            }
            _ => Ok(None),
        }
    }

    /// Checks that one of the earlier suffixes is this one, at the place that a pointer goes to.
    fn pointed(&self, earlier: usize, place: usize, octets: &[u8]) -> Result<(), Flaw> {
        let mut known = self.suffixes.iter().take(earlier);
        if known.any(|it| it.place == place && it.octets == octets) {
            Ok(())
        } else {
            Err(Flaw::Pointer(place))
        }
    }
}

/// The bits of a header that say what kind of message it is: QR, the opcode and the response code (RFC 1035 4.1.1).
const KIND: u16 = 0xf80f;

/// A response to a query, with no error.
const RESPONSE: u16 = 0x8000;

/// The octets of the root.
const ROOT: &[u8] = &[0];

/// The least octet that begins a pointer, and the number of places that a pointer may go to.
const POINTER: u8 = 0xc0;

const REACHED: u16 = 0x4000;

/// Returns the number of octets that data of a type begins with, and the number of names after them that may be
/// compressed: of NS, MD, MF, CNAME, MB, MG, MR and PTR, of SOA and MINFO, and of MX. Other data has no such names (RFC
/// 3597 4).
fn names_in(rtype: Rtype) -> (usize, usize) {
    match rtype.to_int() {
        2..=5 | 7..=9 | 12 => (0, 1),
        6 | 14 => (0, 2),
        15 => (2, 1),
        _ => (0, 0),
    }
}
