//! Addresses of version 4 as tokens: four numbers with dots between them, written at once.
ghost use Rattle.std.specs.Prelude.{◌≡◌, ◌++◌, Some, OnSome, decimal};
ghost use Rattle.std.specs.Net.Addr.{ipv4_octets};
ghost use Rattle.std.specs.Net.Text.{dotted_text, ipv4_text};

use super::ShowField;
use arrayvec::ArrayString;
use dns_text::Formatter;
use itoa::Buffer;
use std::fmt;
use std::net::Ipv4Addr;

impl ShowField for Ipv4Addr {
    fn show_field<F: Formatter>(&self, formatter: &mut F) -> fmt::Result {
        formatter.write_token(Dotted { address: *self })
    }
}

/// An address of version 4 as a token.
#[derive(Drop)]
struct Dotted {
    address: Ipv4Addr,
}

impl fmt::Display for Dotted {
    ghost output = { λ dotted. Some (ipv4_text (ipv4_octets dotted.address)) };

    fn fmt<W: fmt::Write>(&self, f: &mut fmt::Formatter<W>) -> fmt::Result {
        let [first, second, third, fourth] = self.address.octets();
        let mut text = ArrayString::new();
        match push_dotted(&mut text, first, second, third, fourth) {
            Some(()) => f.write_str(&text),
            None => write!(f, "{}", self.address),
        }
    }
}

/// Appends four numbers with dots between them. Returns None if there is no room.
fn push_dotted(
    text: &mut ArrayString<15>,
    first: u8,
    second: u8,
    third: u8,
    fourth: u8,
) -> Option<()>
    ensures { OnSome result (text.new.bytes ≡ text.old.bytes ++ dotted_text first second third fourth) }
{
    push_number(text, first)?;
    text.try_push_str(".").ok()?;
    push_number(text, second)?;
    text.try_push_str(".").ok()?;
    push_number(text, third)?;
    text.try_push_str(".").ok()?;
    push_number(text, fourth)
}

/// Appends a number. Returns None if there is no room.
fn push_number(text: &mut ArrayString<15>, number: u8) -> Option<()>
    ensures { OnSome result (text.new.bytes ≡ text.old.bytes ++ decimal number) }
{
    text.try_push_str(Buffer::new().format(number)).ok()
}
