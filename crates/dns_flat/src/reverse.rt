//! The names of addresses (RFC 1035 3.5, RFC 3596 2.5).
ghost use Rattle.std.specs.Prelude.{◌≡◌, ◌+◌, ◌≤◌, ◌++◌, length, IfOk, IfErr};
ghost use Rattle.std.specs.List.{AllByRecursion};
ghost use Rattle.dns_label.specs.Name.{IsLabel, labels_wire};
ghost use Rattle.dns_label.specs.Composed.{label_wire};
ghost use Rattle.dns_flat.specs.Reverse.{reverse_name, zone_labels, decimal_labels, hex_labels};
ghost use Rattle.dns_wire.specs.declared.push_error.PushError.TheVariants.{ShortBuf};

use crate::Name;
use crate::builder::digits::{decimal_label, hex_label};
use arrayvec::ArrayVec;
use dns_octets::{EmptyBuilder, FromBuilder};
use dns_wire::PushError;
use dns_wire::copies::octets_from;
use std::alloc::Global;
use std::net::IpAddr;

/// Octets of a reverse name. The longest has 74.
type Wire = ArrayVec<u8, 74>;

impl<Octs: FromBuilder> Name<Octs>
where
    Octs::Builder: EmptyBuilder + Drop,
{
    /// Returns the name under which an address is looked up: its octets from the last in decimal digits and
    /// `in-addr.arpa.` (RFC 1035 3.5), or its 32 hexadecimal digits from the last, in lower case, and `ip6.arpa.` (RFC
    /// 3596 2.5).
    ///
    /// Its only error is `ShortBuf`, if there is no room or no memory.
    pub fn reverse_from_addr(alloc: Global, addr: IpAddr) -> Result<Self, PushError>
        ensures ok { IfOk result (λ name. name ≡ reverse_name addr) }
        ensures err { IfErr result (λ error. error ≡ ShortBuf) }
    {
        let mut wire = zone_wire(addr);
        put_label(&mut wire, b"arpa");
        wire.push(0);
        Ok(Name::from_octets_unchecked(octets_from(alloc, wire.as_slice())?))
    }
}

/// Returns the labels before `arpa`.
fn zone_wire(addr: IpAddr) -> Wire
    ensures labels { result.items ≡ labels_wire (zone_labels addr) }
    ensures each { AllByRecursion IsLabel (zone_labels addr) }
    ensures few { length result.items ≤ 68 }
{
    match addr {
        IpAddr::V4(addr) => {
            let mut wire = decimal_wire(&addr.octets());
            put_label(&mut wire, b"in-addr");
            wire
        }
        IpAddr::V6(addr) => {
            let mut wire = hex_wire(&addr.octets());
            put_label(&mut wire, b"ip6");
            wire
        }
    }
}

/// Returns the octets from the last, each as a label of its decimal digits.
fn decimal_wire(octets: &[u8]) -> Wire
    requires { length octets.now ≤ 4 }
    ensures labels { result.items ≡ labels_wire (decimal_labels octets.now) }
    ensures few { length result.items ≤ 16 }
{
    let mut wire = Wire::new();
    let mut rest = octets;
    'octets: while let Some((&last, front)) = rest.split_last() {
        put_label(&mut wire, decimal_label(last).as_slice());
        rest = front;
    }
    wire
}

/// Returns the octets from the last, each as two labels of a hexadecimal digit, the low one first.
fn hex_wire(octets: &[u8]) -> Wire
    requires { length octets.now ≤ 16 }
    ensures labels { result.items ≡ labels_wire (hex_labels octets.now) }
    ensures few { length result.items ≤ 64 }
{
    let mut wire = Wire::new();
    let mut rest = octets;
    'octets: while let Some((&last, front)) = rest.split_last() {
        put_label(&mut wire, &[hex_label(last)]);
        put_label(&mut wire, &[hex_label(last / 16)]);
        rest = front;
    }
    wire
}

/// Appends a label after its length.
fn put_label(wire: &mut Wire, label: &[u8])
    requires { length wire.old.items + 1 + length label.now ≤ 74 }
    ensures { wire.new.items ≡ wire.old.items ++ label_wire label.now }
{
    wire.push(label.len() as u8);
    if wire.try_extend_from_slice(label).is_err() {
        unreachable!();
    }
}
