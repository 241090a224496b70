//! The numbers of a zone as a table.

use dns_field_texts::DisplayType;
use std::alloc::{AllocError, Global};
use std::fmt::{Display, Write};
use zone::Zone;
use zone_send::{SendError, Spelling};
use zone_tool::{statistics_of, stream_len};

/// The ways of writing names, by the words of `zonewire send --spelling`.
static SPELLINGS: &[(&str, Spelling)] = &[
    ("plain", Spelling::Plain),
    ("static", Spelling::Static),
    ("tree", Spelling::Tree),
    ("hash", Spelling::Hash),
];

/// The largest sizes of a message: what pointers reach, and what a length of two octets tells.
static SIZES: &[u16] = &[16384, 65535];

/// Returns the numbers of the zone as a table, a row a line: the records, those of each type, the names, the
/// delegations, and the octets of the transfer's stream for each way of writing names and each size of messages. The types
/// are named by all mnemonics, or by those that `zonewire` knows. Fails if out of memory.
pub(crate) fn table_of(
    alloc: Global,
    zone: &Zone,
    all_mnemonics: bool,
) -> Result<String, AllocError> {
    let numbers = statistics_of(alloc, zone)?;
    let mut table = String::new(alloc);
    push_row(&mut table, "records", &numbers.records)?;
    for it in numbers.types.as_slice() {
        let name = if all_mnemonics {
            format!(in alloc; "{}", DisplayType(it.rtype))?
        } else {
            format!(in alloc; "{}", it.rtype)?
        };
        push_row(&mut table, &name, &it.count)?;
    }
    push_row(&mut table, "names", &numbers.names)?;
    push_row(&mut table, "delegations", &numbers.delegations)?;
    for &(word, spelling) in SPELLINGS {
        for &max in SIZES {
            let name = format!(in alloc; "{word} {max}")?;
            match stream_len(alloc, zone, max, spelling) {
                Ok(len) => push_row(&mut table, &name, &len)?,
                Err(SendError::OutOfMemory) => return Err(AllocError),
                Err(_) => push_row(&mut table, &name, &"does not fit")?,
            }
        }
    }
    Ok(table)
}

/// Appends a row: the name, spaces up to the column of the values, and the value. Fails if out of memory.
fn push_row<V: Display>(table: &mut String, name: &str, value: &V) -> Result<(), AllocError> {
    writeln!(table, "{name:16}{value}")
}
