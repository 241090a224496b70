//! What is held of a text of an encoding until more of it comes.
ghost use Rattle.std.specs.Prelude.{◌≡◌, ◌+◌, ◌*◌, ◌<◌, ◌≤◌, ◌↔◌, List, ℕ, [], ◌∷◌, ◌++◌, IsTrue, IfOk, IfErr, OnOk, OnErr, OnSome, false, length};
ghost use Rattle.dns_scan.specs.ScanError.{is_want_of_room};
ghost use Rattle.dns_scan.specs.Decoding.{Held, HasRead, IsWhole, MakesWhole, WhyRefused, progress_of, octet_in};
ghost use Rattle.dns_scan.specs.declared.encoding.base.Base.{Base};
ghost use Rattle.dns_scan.specs.declared.encoding.base.Base.TheVariants.{SixtyFour};

use super::base::Base;
use super::bits::Bits;
use crate::DecodeError;
use std::marker::Model;

/// The bits of a group of characters that are too few for an octet yet, and the pads.
#[derive(Debug, Drop)]
pub(crate) struct Group {
    /// The bits that wait for the rest of their octet.
    waiting: Bits,
    /// The number of pads so far.
    pads: u32,
}

impl Model for Group {
    ghost Value = { Held };

    ghost view = { λ group. record { waiting = group.waiting; pads = group.pads } };

    ghost invariant = { λ group. (length group.waiting < 8) × (group.pads < 4) };
}

impl Group {
    /// Returns a group before its text.
    pub(crate) fn none() -> Self
        ensures { (base : Base) → HasRead base (progress_of [] result) [] }
    {
        Group {
            waiting: Bits::none(),
            pads: 0,
        }
    }

    /// Takes the next character, and returns the octet that is whole with it, if any.
    pub(crate) fn take(&mut self, base: Base, character: char) -> Result<Option<u8>, DecodeError>
        ensures ok { IfOk result (λ octet. (octets text : List ℕ) → HasRead base (progress_of octets self.old) text
            → HasRead base (progress_of (octets ++ octet_in octet) self.new) (text ++ character ∷ [])) }
        ensures whole { IfOk result (λ octet. OnSome octet (MakesWhole base self.old.pads (length self.old.waiting) character)) }
        ensures why { IfErr result (λ error. (octets : List ℕ) → WhyRefused base (progress_of octets self.old) character error) }
        ensures itself { IfErr result (λ error. is_want_of_room error ≡ false) }
        ensures stays { OnErr result (self.new ≡ self.old) }
    {
        if base.is_pad(character) {
            self.push_pad()?;
            return Ok(None);
        }
        self.push_character(base, character)
    }

    /// Takes a pad.
    fn push_pad(&mut self) -> Result<(), DecodeError>
        ensures ok { OnOk result ((octets text : List ℕ) → HasRead SixtyFour (progress_of octets self.old) text → HasRead SixtyFour (progress_of octets self.new) (text ++ 61 ∷ [])) }
        ensures why { IfErr result (λ error. (octets : List ℕ) → WhyRefused SixtyFour (progress_of octets self.old) 61 error) }
        ensures itself { IfErr result (λ error. is_want_of_room error ≡ false) }
        ensures stays { OnErr result (self.new ≡ self.old) }
    {
        if pad_fits(self.pads, self.waiting.len()) {
            self.pads += 1;
            return Ok(());
        }
        if self.pads > 0 {
            return Err(DecodeError::TrailingInput);
        }
        Err(DecodeError::IllegalChar('='))
    }

    /// Takes a character that is no pad.
    fn push_character(&mut self, base: Base, character: char) -> Result<Option<u8>, DecodeError>
        requires { base ≡ SixtyFour → character ≡ 61 → ⊥ }
        ensures ok { IfOk result (λ octet. (octets text : List ℕ) → HasRead base (progress_of octets self.old) text
            → HasRead base (progress_of (octets ++ octet_in octet) self.new) (text ++ character ∷ [])) }
        ensures whole { IfOk result (λ octet. OnSome octet (MakesWhole base self.old.pads (length self.old.waiting) character)) }
        ensures why { IfErr result (λ error. (octets : List ℕ) → WhyRefused base (progress_of octets self.old) character error) }
        ensures itself { IfErr result (λ error. is_want_of_room error ≡ false) }
        ensures stays { OnErr result (self.new ≡ self.old) }
    {
        if self.pads > 0 {
            return Err(DecodeError::TrailingInput);
        }
        let Some(number) = base.digit(character) else {
            return Err(DecodeError::IllegalChar(character));
        };
        self.waiting.push(base.width(), number);
        if self.waiting.len() < 8 {
            return Ok(None);
        }
        Ok(Some(self.waiting.take(8) as u8))
    }

    /// Returns whether a text may end here.
    pub(crate) fn is_whole(&self, base: Base) -> bool
        ensures { IsTrue result ↔ IsWhole base self.now.pads (length self.now.waiting) }
    {
        is_whole(base, self.pads, self.waiting.len())
    }
}

/// Returns whether one more pad may follow these, if `bits` bits wait.
fn pad_fits(pads: u32, bits: u32) -> bool
    requires { pads < 4 }
    ensures { IsTrue result ↔ ((bits < 6) × (2 * (pads + 1) ≤ bits)) }
{
    bits < 6 && 2 * (pads + 1) <= bits
}

/// Returns whether a text may end after these pads, if `bits` bits wait.
fn is_whole(base: Base, pads: u32, bits: u32) -> bool
    requires { pads < 4 }
    ensures { IsTrue result ↔ IsWhole base pads bits }
{
    match base {
        Base::Sixteen | Base::ThirtyTwoHex => bits < base.width(),
        Base::SixtyFour => bits < base.width() && 2 * pads == bits,
    }
}
