//! Laws of data that a zone's text writes in the form of unknown data, `\# 4 C0000201`.
ghost use Rattle.std.specs.Prelude.{ℕ, List, Option};
ghost use Rattle.dns_label.specs.Octets.{AreOctets};
ghost use Rattle.dns_text.specs.Rows.{TokenRow};
ghost use Rattle.dns_rdata.specs.DataOctets.{data_octets};
ghost use Rattle.dns_entry_scanner.specs.NameInText.{SpellsUnder};
ghost use Rattle.dns_zonefile.specs.Statement.{Stated, StatesRecord};
ghost use Rattle.zone_records.specs.Record.{Record};
ghost use Rattle.zone.specs.Unknown.{HasUnknownRow, IsUnknownForm};
ghost use Rattle.zone.specs.ZoneText.{IsZoneText, start_of};

/// Data of a type with fields may be written in the form of unknown data (RFC 3597 5).
///
/// `some`: each row that states a record can be put into this form. `into`: if a row of a zone's text is put into it,
/// the text stays the zone's, with the same records. `out_of`: the same holds if a row is taken out of it.
pub fn unknown_data_is_the_same()
    ensures some { (origin : Option (List (List ℕ))) (row : TokenRow) (stated : Stated) → StatesRecord (SpellsUnder origin) row stated →
        AreOctets (data_octets stated.rdata) → (other : TokenRow) × IsUnknownForm (SpellsUnder origin) row other }
    ensures into { (text other : List ℕ) (origin : Option (List (List ℕ))) (class : ℕ) (records : List Record) →
        HasUnknownRow (start_of origin class) text other → IsZoneText text origin class records → IsZoneText other origin class records }
    ensures out_of { (text other : List ℕ) (origin : Option (List (List ℕ))) (class : ℕ) (records : List Record) →
        HasUnknownRow (start_of origin class) text other → IsZoneText other origin class records → IsZoneText text origin class records }
{}
