//! Rests as tokens.
use super::ShowLast;
use crate::{LastValue, Rest16, Rest64, RestText, Strings};
use dns_name::Octets;
use dns_text::{DisplayQuoted, Formatter, base16, base64};
use std::fmt;

/// Between quotes.
impl<Octs: Octets> ShowLast for RestText<Octs> {
    fn show_last<F: Formatter>(&self, formatter: &mut F) -> fmt::Result {
        formatter.write_token(DisplayQuoted::of(self.last_octets()))
    }
}

/// In capitals. Without octets there is no token.
impl<Octs: Octets> ShowLast for Rest16<Octs> {
    fn show_last<F: Formatter>(&self, formatter: &mut F) -> fmt::Result {
        let octets = self.last_octets();
        if octets.is_empty() {
            return Ok(());
        }
        formatter.write_token(base16::display(octets))
    }
}

/// Without octets there is no token.
impl<Octs: Octets> ShowLast for Rest64<Octs> {
    fn show_last<F: Formatter>(&self, formatter: &mut F) -> fmt::Result {
        let octets = self.last_octets();
        if octets.is_empty() {
            return Ok(());
        }
        formatter.write_token(base64::display(octets))
    }
}

/// Each string between quotes.
impl<Octs: Octets> ShowLast for Strings<Octs> {
    fn show_last<F: Formatter>(&self, formatter: &mut F) -> fmt::Result {
        for string in self.iter() {
            formatter.write_token(string.display_quoted())?;
        }
        Ok(())
    }
}
