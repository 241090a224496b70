//! Reading returns what was written on a page.
ghost use Rattle.std.specs.Prelude.{◌≡◌, ◌++◌, ℕ, List, length, false};
ghost use Rattle.dns_name.specs.Spelling.{Spelling};
ghost use Rattle.dns_name.specs.Page.{Page, Parts, write};
ghost use Rattle.dns_name.specs.Remembered.{IsSound};
ghost use Rattle.dns_name.specs.SpelledParts.{SpellsParts};
ghost use Rattle.dns_compression_laws.specs.Alike.{AreAlike, HaveNames, LengthsFit, SpellsAlike};

/// If each remembered suffix of a page is in its octets, the octets added for some parts spell these parts, whatever
/// follows
/// them: each name with at most 255 pointers, octet for octet, or up to ASCII case if the spelling folds.
pub fn written_parts_are_spelled()
    ensures { (s : Spelling) (page : Page) (parts : Parts) (more : List ℕ) → ∥ IsSound s page.known page.octets ∥₁
        → HaveNames parts → LengthsFit s page parts
        → ∥ SpellsAlike s ((write s page parts).octets ++ more) (length page.octets) parts
        (length (write s page parts).octets) ∥₁ }
{}

/// The suffixes remembered after the write are in the octets too.
pub fn written_parts_are_remembered()
    ensures { (s : Spelling) (page : Page) (parts : Parts) → ∥ IsSound s page.known page.octets ∥₁ → HaveNames parts
        → ∥ IsSound s (write s page parts).known (write s page parts).octets ∥₁ }
{}

/// If the spelling does not fold, parts that are alike are equal.
pub fn exact_parts_are_the_same()
    ensures { (s : Spelling) (parts : Parts) (read : Parts) → s.folds ≡ false → AreAlike s parts read → parts ≡ read }
{}
