//! Laws of the numbers of this crate. Each function does nothing; what it ensures is the law.
ghost use Rattle.std.specs.Prelude.{◌≡◌, ◌<◌, ◌+◌, ◌-◌, ◌*◌, ◌/◌, ◌%◌, ◌^◌, ◌↔◌, Some, None, [], ◌∷◌, length};
ghost use Rattle.std.specs.declared.cmp.Ordering.TheVariants.{Less};
ghost use Rattle.dns_values.specs.Mnemonic.{type_read, type_written, class_read, class_written};
ghost use Rattle.dns_values.specs.Serial.{serial_add, serial_cmp, swapped};

use crate::{Opcode, Rcode, Serial, Ttl};
use dns_octets::Compose;

/// A record type that is printed reads back as itself.
#[tactic(auto, using(crate::proofs::ReadsBack::reads_back_rules))]
pub fn type_reads_back(number: u16)
    ensures { type_read (type_written number) ≡ Some number }
{}

/// A class that is printed reads back as itself.
#[tactic(auto, using(crate::proofs::ReadsBack::reads_back_rules))]
pub fn class_reads_back(number: u16)
    ensures { class_read (class_written number) ≡ Some number }
{}

/// A serial number is less than one that is 1 to 2^31 - 1 later (RFC 1982, section 3.2).
#[tactic(auto, using(crate::proofs::Serials::serial_laws))]
pub fn serial_below_later(serial: u32, further: u32)
    requires some { 0 < further }
    requires near { further < 2 ^ 31 }
    ensures { serial_cmp serial (serial_add serial further) ≡ Some Less }
{}

/// A comparison with its sides swapped returns the reverse, or None again.
#[tactic(auto, using(crate::proofs::Serials::serial_laws))]
pub fn serial_sides_swapped(serial: u32, other: u32)
    ensures { serial_cmp other serial ≡ swapped (serial_cmp serial other) }
{}

/// Two serial numbers have no order exactly if they are 2^31 apart.
#[tactic(auto, using(crate::proofs::Serials::serial_laws))]
pub fn serial_half_way_round(serial: u32, other: u32)
    ensures { (serial_cmp serial other ≡ None) ↔ ((serial + 2 ^ 31) % 2 ^ 32 ≡ other) }
{}

/// Returns the opcodes that have names, in the order of their numbers (RFC 1035, 1996, 2136 and 3425).
pub fn named_opcodes() -> [Opcode; 5]
    ensures { result ≡ 0 ∷ 1 ∷ 2 ∷ 4 ∷ 5 ∷ [] }
{
    [
        Opcode::QUERY,
        Opcode::IQUERY,
        Opcode::STATUS,
        Opcode::NOTIFY,
        Opcode::UPDATE,
    ]
}

/// Returns the response codes that have names, in the order of their numbers (RFC 1035, section 4.1.1).
pub fn named_rcodes() -> [Rcode; 6]
    ensures { result ≡ 0 ∷ 1 ∷ 2 ∷ 3 ∷ 4 ∷ 5 ∷ [] }
{
    [
        Rcode::NOERROR,
        Rcode::FORMERR,
        Rcode::SERVFAIL,
        Rcode::NXDOMAIN,
        Rcode::NOTIMP,
        Rcode::REFUSED,
    ]
}

/// Returns the times that have names: none, a second, a minute, an hour, a day, the week that `Ttl::cap` cuts to, and
/// the longest.
pub fn named_times() -> [Ttl; 7]
    ensures { result ≡ 0 ∷ 1 ∷ 60 ∷ (60 * 60) ∷ (24 * (60 * 60)) ∷ (7 * (24 * (60 * 60))) ∷ (2 ^ 32 - 1) ∷ [] }
{
    [
        Ttl::ZERO,
        Ttl::SECOND,
        Ttl::MINUTE,
        Ttl::HOUR,
        Ttl::DAY,
        Ttl::CAP,
        Ttl::MAX,
    ]
}

/// The greatest numbers of whole minutes, hours and days are those of the longest time.
pub fn longest_times()
    ensures minutes { Ttl.MAX_MINUTES ≡ (2 ^ 32 - 1) / 60 }
    ensures hours { Ttl.MAX_HOURS ≡ (2 ^ 32 - 1) / (60 * 60) }
    ensures days { Ttl.MAX_DAYS ≡ (2 ^ 32 - 1) / (24 * (60 * 60)) }
{}

/// A time and a serial number have as many octets in a message as their types say.
pub fn composed_lengths(ttl: Ttl, serial: Serial)
    ensures ttl { length (⟦<Ttl as Compose>⟧.composed ttl) ≡ Ttl.COMPOSE_LEN }
    ensures serial { length (⟦<Serial as Compose>⟧.composed serial) ≡ Serial.COMPOSE_LEN }
{}
