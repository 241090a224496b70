//! The texts of faults.
ghost use Rattle.std.specs.Prelude.{◌≡◌, ◌++◌, ℕ, List, None, Some, decimal, MatchResult};
ghost use Rattle.zonewire_c.specs.Answer.{HandsOut, HandsOutOrLacksMemory};
ghost use Rattle.zonewire_c.specs.FaultText.{parts_in, parts_of, rows, rows_of, text_of};
ghost use Rattle.zonewire_c.specs.declared.fault.Fault.TheVariants.{OutOfMemory};

use crate::answer::{Answer, fill, hand_out};
use crate::fault::Fault;
use itoa::Buffer;
use std::alloc::Global;

/// The number of a fault, the text before the number that it names, and the text after that. If it names none, its text
/// is the first alone.
type Row = (u32, (&'static str, Option<&'static str>));

/// The faults that have a text.
#[rattlefmt::skip]
static ROWS: [Row; 39] = [
    (1, ("out of memory", None)), (2, ("bad name", None)), (3, ("bad layout", None)), (4, ("bad spelling", None)),
    (101, ("class ANY", None)), (102, ("entry ", Some(": text"))), (103, ("entry ", Some(": include"))),
    (104, ("entry ", Some(": untyped data"))), (105, ("entry ", Some(": first record is not SOA"))),
    (106, ("entry ", Some(": second SOA"))), (107, ("entry ", Some(": out of zone"))),
    (108, ("entry ", Some(": cannot be spelled"))), (109, ("no SOA", None)),
    (201, ("query: short", None)), (202, ("query: response", None)), (203, ("query: opcode", None)), (204, ("query: counts", None)),
    (205, ("query: malformed", None)), (206, ("query: not AXFR", None)), (207, ("query: class ANY", None)),
    (208, ("query: trailing", None)),
    (302, ("wrong zone", None)), (303, ("record ", Some(" does not fit"))),
    (402, ("short message", None)), (403, ("wrong id", None)), (404, ("not a response", None)), (405, ("wrong opcode", None)),
    (406, ("rcode ", Some(""))), (407, ("wrong counts", None)), (408, ("wrong question", None)),
    (409, ("record ", Some(": malformed"))), (410, ("first record is not the SOA", None)),
    (411, ("record ", Some(": wrong class"))), (412, ("record ", Some(": out of zone"))),
    (413, ("record ", Some(": SOA differs"))), (414, ("record ", Some(": behind the last SOA"))),
    (415, ("record ", Some(": cannot be spelled"))), (416, ("trailing octets", None)), (417, ("unfinished", None)),
];

/// Writes the text of a fault to the buffer, without a line feed, by the `fault` and the `number` of the answer that has
/// it. The text has no octets if no fault has the number.
///
/// Only a text that names a number takes memory, and fails with `OutOfMemory` if there is none.
#[unsafe(no_mangle)]
pub extern "C" fn zonewire_fault_text(
    alloc: Global,
    fault: u32,
    number: usize,
    out: &mut [u8],
) -> Answer
    ensures text { HandsOutOrLacksMemory (text_of fault number) out.old out.new result }
    ensures plain { (front : List ℕ) → parts_in rows fault ≡ Some (front, None) → HandsOut front out.old out.new result }
{
    let plain = match parts_in(rows(), fault) {
        Some((front, Some(back))) => return hand_out(numbered(alloc, front, number, back), out),
        Some((front, None)) => front,
        None => "",
    };
    Answer {
        fault: 0,
        number: 0,
        count: fill(out, plain.as_bytes()),
    }
}

/// Returns the text of these parts with the number between them. Fails if out of memory.
fn numbered(alloc: Global, front: &str, number: usize, back: &str) -> Result<Vec<u8>, Fault>
    ensures { MatchResult result (λ text. text.items ≡ front.now ++ (decimal number ++ back.now)) (λ fault. fault ≡ OutOfMemory) }
{
    let mut digits = Buffer::new();
    let mut text = Vec::from_slice(alloc, front.as_bytes())?;
    text.extend_from_slice(digits.format(number).as_bytes())?;
    text.extend_from_slice(back.as_bytes())?;
    Ok(text)
}

/// Returns the parts that the table has for a fault, if it has them.
#[tactic(auto, using(crate::proofs::Texts::parts_rules))]
fn parts_in(table: &[Row], fault: u32) -> Option<(&'static str, Option<&'static str>)>
    ensures { parts_of result ≡ parts_in (rows_of table.now) fault }
{
    for row in table {
        if row.0 == fault {
            return Some(row.1);
        }
    }
    None
}

/// Returns the faults that have a text.
#[tactic(auto, unfolding(crate::specs::FaultText::rows))]
fn rows() -> &'static [Row]
    ensures { rows_of result.now ≡ rows }
{
    &ROWS
}
