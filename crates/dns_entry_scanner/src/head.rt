//! What an octet means between two tokens.
ghost use Rattle.std.specs.Prelude.{◌≡◌, Bool, IsTrue};
ghost use Rattle.dns_text.specs.Tokens.Head.{Go};
ghost use Rattle.dns_text.specs.Tokens.{head_of as spec_head_of};
ghost use Rattle.dns_entry_scanner.specs.Head.{head_in};

/// What an octet means between two tokens, outside or inside parentheses.
#[derive(Clone, Copy)]
pub(crate) enum Head {
    /// Nothing. Says whether what follows is inside parentheses.
    Go(bool),
    Comment,
    Feed,
    Quote,
    Word,
    /// The octet is not allowed there.
    Refused,
}

/// Returns what the octet means between two tokens.
#[inline(always)]
pub(crate) fn head_of(inside: bool, octet: u8) -> Head
    ensures { spec_head_of inside octet ≡ head_in result }
{
    // Most octets here are a space, a tab, a letter or a digit.
    if octet == b' ' || octet == b'\t' {
        return Head::Go(inside);
    }
    if octet > b';' || octet.is_ascii_digit() {
        return Head::Word;
    }
    match octet {
        b'\r' => Head::Go(inside),
        b'\n' => { if inside { Head::Go(true) } else { Head::Feed } }
        b'(' => {
            if inside {
                Head::Refused
            } else {
                Head::Go(true)
            }
        }
        b')' => {
            if inside {
                Head::Go(false)
            } else {
                Head::Refused
            }
        }
        b';' => Head::Comment,
        b'"' => Head::Quote,
        _ => Head::Word,
    }
}

/// Returns whether the octet is a space or a tab. It means nothing between two tokens.
#[inline(always)]
pub(crate) fn is_space(octet: u8) -> bool
    ensures { IsTrue result → (inside : Bool) → spec_head_of inside octet ≡ Go inside }
{
    octet == b' ' || octet == b'\t'
}
