//! A zone that is sent, received and printed is the same zone.

ghost use Rattle.std.specs.Prelude.{◌≡◌, ℕ, List, Option, unwrap_or};
ghost use Rattle.dns_label.specs.Name.{IsName, low};
ghost use Rattle.dns_label.specs.Octets.{AreOctets};
ghost use Rattle.dns_text.specs.Document.{Layout};
ghost use Rattle.dns_text.specs.declared.layout.DisplayKind.{DisplayKind};
ghost use Rattle.zone_records.specs.Record.{Record};
ghost use Rattle.zone_core.specs.Query.{AxfrQuery, IsQuery};
ghost use Rattle.zone_core.specs.Transfer.{IsTransfer};
ghost use Rattle.zone.specs.Printed.{IsPrinted};
ghost use Rattle.zone.specs.ZoneText.{IsZoneText};
ghost use Rattle.zone_send.specs.Best.{IsSentFor};
ghost use Rattle.zone_core.specs.declared.spelling.Spelling.{Spelling};
ghost use Rattle.zone.specs.View.{apex_of};
ghost use Rattle.zonewire.specs.Output.{IsOutput};
ghost use Rattle.zonewire.specs.Passed.{ArePassedBy, HasLawfulValues};
ghost use Rattle.zonewire_words.specs.declared.jobs.Job.TheVariants as job;

use zone::laws::printed_text_is_the_zones;

/// What is sent for the zone of a text, under any spelling and limit, received and printed, in any layout, is a text of
/// the records that were received, under any origin. They are the zone's records, octet for octet, if names keep their
/// case, and otherwise differ from them at most in the ASCII case of owners and compressible names.
///
/// The facts are those that `Zone::read`, `send`, `Receiver::new`, `Receiver::into_zone` and `Zone::print` ensure, in
/// this order. `octets` are those of the query.
pub fn sent_received_and_printed_is_the_zone()
    ensures { (spelling : Spelling) (layout : Layout) (text : List ℕ) (origin : Option (List (List ℕ))) (class max : ℕ)
        (records others : List Record) (octets stream printed : List ℕ) (query : AxfrQuery) → AreOctets stream →
        IsZoneText text origin class records → IsSentFor spelling records class octets max stream →
        IsQuery octets query → IsTransfer query stream others → IsPrinted layout others printed →
        ArePassedBy spelling records others × ((again : Option (List (List ℕ))) → IsZoneText printed again class others) }
{
    printed_text_is_the_zones();
}

/// The program receives what it sends. Whatever a job of `send` writes for the text of a zone, a job of `receive` has an
/// output for it if it has the same class and ID and asks for the same name, up to ASCII case: the text, under any
/// origin, of the records that are received. They are the zone's records, as in the law above.
pub fn sent_by_a_job_is_received()
    ensures { (spelling : Spelling) (kind : DisplayKind) (origin apex : Option (List (List ℕ))) (class id max : ℕ) (name : List (List ℕ))
        (records : List Record) (text stream : List ℕ) → HasLawfulValues (job.Send origin class id apex max spelling) → IsName name →
        AreOctets stream → IsZoneText text origin class records → low name ≡ low (unwrap_or apex (apex_of records)) →
        IsOutput (job.Send origin class id apex max spelling) text stream →
        (others : List Record) × (printed : List ℕ) × ArePassedBy spelling records others ×
        IsOutput (job.Receive class id name kind) stream printed ×
        ((again : Option (List (List ℕ))) → IsZoneText printed again class others) }
{
    printed_text_is_the_zones();
}
