//! What is kept of the records that are read from a text: all of them, or the first and their number.
ghost use Rattle.std.specs.Prelude.{◌≡◌, ◌≢◌, ◌<◌, ◌+◌, ◌++◌, ◌^◌, ℕ, List, [], true, false, length, OnOk};
ghost use Rattle.std.specs.List.{push};
ghost use Rattle.dns_label.specs.Name.{wire};
ghost use Rattle.zone_records.specs.MessageRecord.{IsRecord, record_octets};
ghost use Rattle.zone_records.specs.Record as spec;
ghost use Rattle.zone.specs.Reading.{IsFirst};

use std::alloc::{AllocError, Global};

/// A keeper of records, whose octets are in one vector. It keeps the first at least: its owner is the zone's apex.
#[derive(Drop)]
pub(crate) struct Keeper {
    /// Whether it keeps the first record alone.
    first_only: bool,
    /// The number of octets of the apex. 0 before the first record.
    pub(crate) apex_len: usize,
    /// The offset in the octets at which each record begins, if it keeps all.
    pub(crate) places: Vec<usize>,
    /// The number of records.
    pub(crate) count: usize,
}

impl Keeper {
    ghost use Rattle.zone.specs.Kept.{Keeps};

    /// Returns a keeper of all records.
    pub(crate) fn of_all(alloc: Global) -> Keeper
        ensures kept { Keeps result [] [] }
        ensures all { result.first_only ≡ false }
    {
        Keeper {
            first_only: false,
            apex_len: 0,
            places: Vec::new(alloc),
            count: 0,
        }
    }

    /// Returns a keeper of the first record alone, which counts all.
    pub(crate) fn of_first(alloc: Global) -> Keeper
        ensures kept { Keeps result [] [] }
        ensures first { result.first_only ≡ true }
    {
        Keeper {
            first_only: true,
            apex_len: 0,
            places: Vec::new(alloc),
            count: 0,
        }
    }

    /// Takes the next record, whose octets are those from the place on, and keeps or removes them. The first `owner_len` of
    /// them are its owner. Fails if out of memory.
    pub(crate) fn keep(
        &mut self,
        octets: &mut Vec<u8>,
        place: usize,
        owner_len: usize,
    ) -> Result<(), AllocError>
        requires { (before : List ℕ) × (records : List spec.Record) × Keeps self.old before records × (length records + 1 < 2 ^ 64) }
        ensures kept { OnOk result ((before : List ℕ) (records : List spec.Record) (r : spec.Record) → Keeps self.old before records
            → IsRecord r → octets.old.items ≡ before ++ record_octets r → place ≡ length before → owner_len ≡ length (wire r.owner)
            → Keeps self.new octets.new.items (push records r)) }
        ensures kind { self.new.first_only ≡ self.old.first_only }
    {
        self.count_record(place, owner_len);
        if self.first_only {
            leave_first(octets, place);
            return Ok(());
        }
        self.places.push(place)?;
        Ok(())
    }

    /// Counts the record at the place, whose owner has this number of octets.
    fn count_record(&mut self, place: usize, owner_len: usize)
        requires { self.old.count + 1 < 2 ^ 64 }
        ensures kind { self.new.first_only ≡ self.old.first_only }
        ensures places { self.new.places.items ≡ self.old.places.items }
        ensures counted { self.new.count ≡ self.old.count + 1 }
        ensures first { place ≡ 0 → self.new.apex_len ≡ owner_len }
        ensures later { place ≢ 0 → self.new.apex_len ≡ self.old.apex_len }
    {
        if place == 0 {
            self.apex_len = owner_len;
        }
        self.count += 1;
    }
}

/// Removes the record at the place, unless it is the first.
fn leave_first(octets: &mut Vec<u8>, place: usize)
    ensures { (before : List ℕ) (records : List spec.Record) (r : spec.Record) → IsFirst before records → IsRecord r
        → octets.old.items ≡ before ++ record_octets r → place ≡ length before → IsFirst octets.new.items (push records r) }
{
    if place > 0 {
        octets.truncate(place);
    }
}
