//! The windows of a bitmap.
ghost use Rattle.std.specs.Prelude.{◌≡◌, ◌↔◌, ◌≤◌, ℕ, List, IsTrue, IfSome, IfNone, slice_index};
ghost use Rattle.dns_scan.specs.Bits.{all_bits};
ghost use Rattle.dns_field_texts.specs.TypeBitmap.{IsTypeBitmap};
ghost use Rattle.dns_field_texts.specs.Windows.{BeginsWithWindow, AreWindowOctets};

/// Returns whether the octets are a bitmap.
pub fn is_type_bitmap(octets: &[u8]) -> bool
    ensures { IsTrue result ↔ IsTypeBitmap octets.now }
{
    let mut left = octets;
    let mut low = 0;
    while let Some((number, window, behind)) = split_window(left) {
        if !can_follow(low, number, window) {
            return false;
        }
        low = u16::from(number) + 1;
        left = behind;
    }
    left.is_empty()
}

/// Returns whether the window's number is at least `low`, and its octets are ones of a window.
fn can_follow(low: u16, number: u8, window: &[u8]) -> bool
    ensures yes { IsTrue result → (low ≤ number) × AreWindowOctets window.now }
    ensures no { (IsTrue result → ⊥) → low ≤ number → AreWindowOctets window.now → ⊥ }
{
    low <= u16::from(number) && are_window_octets(window)
}

/// Returns the number and the octets of the window that the octets begin with, and what is behind it.
pub(super) fn split_window(octets: &[u8]) -> Option<(u8, &[u8], &[u8])>
    ensures some { IfSome result (λ parts. BeginsWithWindow octets.now parts.0 parts.1.now parts.2.now) }
    ensures none { IfNone result ((number : ℕ) (window behind : List ℕ) → BeginsWithWindow octets.now number window behind → ⊥) }
{
    let (&number, behind) = octets.split_first()?;
    let (&count, behind) = behind.split_first()?;
    let (window, behind) = behind.split_at_checked(usize::from(count))?;
    Some((number, window, behind))
}

/// Returns whether these are 1 to 32 octets, and the last is not zero.
fn are_window_octets(octets: &[u8]) -> bool
    ensures { IsTrue result ↔ AreWindowOctets octets.now }
{
    match octets.last() {
        Some(&last) => last != 0 && octets.len() <= 32,
        None => false,
    }
}

/// Returns whether a bit of the octets of a window is one, which is counted from the highest of the first octet.
pub(super) fn is_one(octets: &[u8], place: usize) -> bool
    ensures { IsTrue result ↔ (slice_index (all_bits 8 octets.now) place ≡ 1) }
{
    match octets.get(place / 8) {
        Some(octet) => (octet >> (7 - place % 8) as u32) % 2 == 1,
        None => false,
    }
}
