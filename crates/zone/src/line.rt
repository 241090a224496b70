//! Lines of text.
ghost use Rattle.std.specs.Prelude.{◌≡◌, ◌++◌, ◌∷◌, [], IfSome, OnOk, string_bytes};

use arrayvec::ArrayString;
use std::alloc::AllocError;
use std::fmt::{self, Write};

/// Appends what the value displays, followed by a line feed. A line of up to 512 octets is put together first, so that the text
/// grows once.
///
/// Fails if out of memory.
pub(crate) fn append_line<T: fmt::Display>(text: &mut String, value: &T) -> Result<(), AllocError>
    ensures { OnOk result (IfSome (T.output value.now) (λ line.
        string_bytes text.new ≡ string_bytes text.old ++ (line ++ 10 ∷ []))) }
{
    let mut line = ArrayString::<512>::new();
    match writeln!(line, "{value}") {
        Ok(()) => text.push_str(&line),
        Err(_) => writeln!(text, "{value}"),
    }
}
