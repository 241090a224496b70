//! Laws of a zone's printed text.
ghost use Rattle.std.specs.Prelude.{◌≡◌, ◌≢◌, ℕ, List, Option};
ghost use Rattle.dns_text.specs.Document.{Layout};
ghost use Rattle.zone_records.specs.Record.{Record};
ghost use Rattle.zone_records.specs.Records.{AreRecordsOf};
ghost use Rattle.zone_records.specs.Zone.{any_class};
ghost use Rattle.zone.specs.Printed.{IsPrinted};
ghost use Rattle.zone.specs.ZoneText.{IsZoneText};

use dns_scan::laws::texts_read_back;

/// The records of a zone have a printed text in each layout. Records of any types have at most one.
pub fn records_have_one_printed_text()
    ensures some { (layout : Layout) (class : ℕ) (records : List Record) → AreRecordsOf class records →
        (text : List ℕ) × IsPrinted layout records text }
    ensures one { (layout : Layout) (records : List Record) (a b : List ℕ) →
        IsPrinted layout records a → IsPrinted layout records b → a ≡ b }
{}

/// The printed text of a zone is its text, in each layout: read with its class and any origin, it gives the same
/// records. No zone has the class ANY.
pub fn printed_text_is_the_zones()
    ensures { (layout : Layout) (origin : Option (List (List ℕ))) (class : ℕ) (records : List Record) (text : List ℕ) →
        class ≢ any_class → AreRecordsOf class records → IsPrinted layout records text → IsZoneText text origin class records }
{
    texts_read_back();
}
