//! Text to labels, and back (RFC 1035, section 5.1).
ghost use Rattle.std.specs.Prelude.{◌≡◌, ◌≤◌, ◌<◌, ◌++◌, ◌∷◌, [], List, ℕ, Some, true, false, length, IfOk, IfErr, OnOk, OnErr, MatchResult};
ghost use Rattle.std.specs.Iterator.{IsFinite, Drains, YieldsFirst};
ghost use Rattle.dns_label.specs.OwnedLabel.{octets_owned};
ghost use Rattle.dns_label.specs.Symbol.{IsSymbol, octet};
ghost use Rattle.dns_label.specs.NameText.{is_dot};
ghost use Rattle.dns_label.specs.declared.label.owned.text.LabelFromStrError.TheVariants.{BadSymbol, EmptyLabel};
ghost use Rattle.dns_label.specs.Printed.{printed_label};
ghost use Rattle.dns_label.specs.Taken.{RulesOut};

use super::OwnedLabel;
use crate::{Symbol, SymbolCharsError};
use std::fmt;
use std::str::FromStr;
use thiserror::Error;

/// Why a text spells no label.
#[derive(Clone, Copy, Debug, PartialEq, Eq, Error)]
pub enum LabelFromStrError {
    /// Some of it is no symbol.
    #[error("bad symbol")]
    BadSymbol,
    /// It has a dot that is not escaped. Such a dot separates labels.
    #[error("dot in a label")]
    Dot,
    /// It is empty.
    #[error("empty label")]
    EmptyLabel,
    /// It spells more than 63 octets.
    #[error("long label")]
    LongLabel,
}

impl From<SymbolCharsError> for LabelFromStrError {
    ghost from_gives = { λ _ error. error ≡ BadSymbol };

    fn from(_: SymbolCharsError) -> LabelFromStrError {
        LabelFromStrError::BadSymbol
    }
}

impl OwnedLabel {
    ghost use Rattle.dns_label.specs.LabelText.{IsLabelText, IsLabelFault, IsOver};

    /// Returns the label that characters spell: symbols other than a dot, one for each of its 1 to 63 octets.
    ///
    /// Fails if they spell no label, and may then leave some of them untaken.
    pub fn from_chars<C: Iterator<Item = char> + Drop>(
        mut chars: C,
    ) -> Result<Self, LabelFromStrError>
        requires can { C.can_next chars }
        requires ends { IsFinite (C.remaining chars) }
        ensures ok { IfOk result (λ label. (text : List ℕ) × Drains C.next_gives chars text × IsLabelText text (octets_owned label)) }
        ensures err { OnErr result (RulesOut C.next_gives chars (λ text. (label : List ℕ) × IsLabelText text label)) }
        ensures why { IfErr result (IsLabelFault C.next_gives chars) }
    {
        let mut label = OwnedLabel { wire: [0; 64] };
        while let Some(symbol) = Symbol::from_chars(&mut chars)? {
            label.push(symbol)?;
        }
        label.filled()
    }

    /// Returns the label that a text spells. Fails if it spells none.
    fn from_text(text: &[u8]) -> Result<Self, LabelFromStrError>
        ensures ok { IfOk result (λ label. IsLabelText text.now (octets_owned label)) }
        ensures err { OnErr result (((label : List ℕ) × IsLabelText text.now label) → ⊥) }
        ensures why { IfErr result (IsLabelFault (YieldsFirst (λ octets. octets)) text.now) }
    {
        let mut read = OwnedLabel { wire: [0; 64] };
        let mut rest = text;
        while !rest.is_empty() {
            let Some((symbol, behind)) = Symbol::split_from(rest) else {
                return Err(LabelFromStrError::BadSymbol);
            };
            read.push(symbol)?;
            rest = behind;
        }
        read.filled()
    }

    /// Appends the octet of a symbol. Fails at a dot, and past 63 octets.
    fn push(&mut self, symbol: Symbol) -> Result<(), LabelFromStrError>
        requires { IsSymbol symbol }
        ensures plain { OnOk result (is_dot symbol ≡ false) }
        ensures ok { OnOk result (octets_owned self.new ≡ octets_owned self.old ++ octet symbol ∷ []) }
        ensures err { IfErr result (IsOver symbol (octets_owned self.old)) }
    {
        if matches!(symbol, Symbol::Char('.')) {
            return Err(LabelFromStrError::Dot);
        }
        let Ok(octet) = symbol.into_octet() else {
            unreachable!();
        };
        let len = self.wire_len();
        if len > 63 {
            return Err(LabelFromStrError::LongLabel);
        }
        self.wire[0] = len as u8;
        self.wire[len] = octet;
        Ok(())
    }

    /// Returns the label. Fails if it has no octets.
    fn filled(self) -> Result<Self, LabelFromStrError>
        ensures ok { IfOk result (λ label. (octets_owned label ≡ octets_owned self) × (0 < length (octets_owned label))) }
        ensures err { OnErr result (octets_owned self ≡ []) }
        ensures why { IfErr result (λ error. error ≡ EmptyLabel) }
    {
        if self.wire_len() == 1 {
            return Err(LabelFromStrError::EmptyLabel);
        }
        Ok(self)
    }
}

impl FromStr for OwnedLabel {
    ghost use Rattle.dns_label.specs.LabelText.{IsLabelText, IsLabelFault};

    type Err = LabelFromStrError;

    ghost from_str_gives = { λ text result. MatchResult result (λ label. IsLabelText text (octets_owned label)) (λ error. (((label : List ℕ) × IsLabelText text label) → ⊥) × IsLabelFault (YieldsFirst (λ octets. octets)) text error) };

    fn from_str(text: &str) -> Result<Self, LabelFromStrError> {
        OwnedLabel::from_text(text.as_bytes())
    }
}

impl fmt::Display for OwnedLabel {
    ghost output = { λ label. Some (printed_label (octets_owned label)) };

    fn fmt<W: fmt::Write>(&self, f: &mut fmt::Formatter<W>) -> fmt::Result {
        let label = self.as_label();
        write!(f, "{label}")
    }
}
