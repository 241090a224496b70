//! Laws of the fields. Each function does nothing; what it ensures is the law.
ghost use Rattle.std.specs.List.{Contains};
ghost use Rattle.std.specs.Prelude.{◌≡◌, ◌≤◌, ◌↔◌, List, ℕ, [], Some, decimal, length, map};
ghost use Rattle.dns_label.specs.Octets.{AreOctets};
ghost use Rattle.dns_scan.specs.Token.{Token, unquoted};
ghost use Rattle.dns_field_texts.specs.Hardware.{IsHardwareText, hardware_written};
ghost use Rattle.dns_field_texts.specs.HashWords.{IsCountable, IsSaltWord, IsHashWord, salt_written, hash_written};
ghost use Rattle.dns_field_texts.specs.Location as place;
ghost use Rattle.dns_field_texts.specs.Location.{IsLocation};
ghost use Rattle.dns_field_texts.specs.LocationText.{ScansLocation, location_words};
ghost use Rattle.dns_field_texts.specs.NumberedWords.{algorithm_read, certificate_type_read};
ghost use Rattle.dns_field_texts.specs.Time.{time_read, time_written};
ghost use Rattle.dns_field_texts.specs.TypeBitmap.{IsTypeBitmap, ScansTypes, printed_types, types_in};
ghost use Rattle.dns_field_texts.specs.TypeWords.{type_word_read, type_word_written};

/// A type that is written reads back as itself.
#[tactic(auto, using(crate::proofs::TypeWords::type_word_reads_back))]
pub fn type_word_reads_back(number: u16)
    ensures { type_word_read (type_word_written number) ≡ Some number }
{}

/// The digits of an algorithm read back as the algorithm.
#[tactic(auto, using(crate::proofs::NumberedWords::algorithm_reads_back))]
pub fn algorithm_reads_back(algorithm: u8)
    ensures { algorithm_read (decimal algorithm) ≡ Some algorithm }
{}

/// The digits of a type of certificate read back as the type.
#[tactic(auto, using(crate::proofs::NumberedWords::certificate_type_reads_back))]
pub fn certificate_type_reads_back(number: u16)
    ensures { certificate_type_read (decimal number) ≡ Some number }
{}

/// A time that is written reads back as itself.
#[tactic(auto, using(crate::proofs::Moments::time_reads_back))]
pub fn time_reads_back(time: u32)
    ensures { time_read (time_written time) ≡ Some time }
{}

/// A salt and a hash that are written are what their words are of.
pub fn hash_words_read_back()
    ensures salt { (salt : List ℕ) → AreOctets salt → length salt ≤ 255 → IsSaltWord (salt_written salt) salt }
    ensures hash { (hash : List ℕ) → AreOctets hash → IsCountable hash → IsHashWord (hash_written hash) hash }
{}

/// A word is of one salt alone, and of one hash alone.
pub fn hash_words_are_of_one()
    ensures salt { (text a b : List ℕ) → IsSaltWord text a → IsSaltWord text b → a ≡ b }
    ensures hash { (text a b : List ℕ) → IsHashWord text a → IsHashWord text b → a ≡ b }
{}

/// A hardware address that is written is what its text is of.
pub fn hardware_reads_back()
    ensures { (octets : List ℕ) → AreOctets octets → IsHardwareText (length octets) (hardware_written octets) octets }
{}

/// A text is of one hardware address alone.
pub fn hardware_text_is_of_one()
    ensures { (count : ℕ) (text a b : List ℕ) → IsHardwareText count text a → IsHardwareText count text b → a ≡ b }
{}

/// How a bitmap is printed scans as the bitmap.
pub fn printed_bitmap_scans_back()
    ensures { (octets : List ℕ) → IsTypeBitmap octets → ScansTypes (printed_types (types_in octets)) [] octets }
{}

/// Bitmaps with the same types are the same octets.
pub fn bitmaps_of_types_are_one()
    ensures { (a b : List ℕ) → IsTypeBitmap a → IsTypeBitmap b → AreOctets a → AreOctets b
        → ((type : ℕ) → Contains (types_in a) type ↔ Contains (types_in b) type) → a ≡ b }
{}

/// How a location is printed scans as the location.
#[tactic(auto, using(crate::proofs::LocationPrinted::printed_scans))]
pub fn printed_location_scans_back()
    ensures { (location : place.Location) → IsLocation location → ScansLocation location (map unquoted (location_words location)) }
{}

/// What tokens scan as is a location.
pub fn scanned_location_is_one()
    ensures { (location : place.Location) (tokens : List Token) → ScansLocation location tokens → IsLocation location }
{}
