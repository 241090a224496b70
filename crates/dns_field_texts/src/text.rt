//! Texts that are cut at an octet.
ghost use Rattle.std.specs.Prelude.{◌≡◌, ◌++◌, ◌∷◌, IfSome, IfNone};
ghost use Rattle.dns_field_texts.specs.Cut.{IsWithout};

/// Splits a text at the first octet of that value: what is before it, and what is after it, if there is one.
pub fn split_first(text: &[u8], wanted: u8) -> (&[u8], Option<&[u8]>)
    ensures front { IsWithout wanted result.0.now }
    ensures some { IfSome result.1 (λ behind. text.now ≡ result.0.now ++ wanted ∷ behind.now) }
    ensures none { IfNone result.1 (text.now ≡ result.0.now) }
{
    let mut at = 0;
    while at < text.len() {
        if text[at] == wanted {
            return (&text[..at], Some(&text[at + 1..]));
        }
        at += 1;
    }
    (text, None)
}
