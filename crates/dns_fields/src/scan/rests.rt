//! Rests that are scanned: a text is one token, strings are all that are left, an encoding is all words.
use super::ScanRow;
use crate::{Last, Rest16, Rest64, RestText, Strings};
use dns_name::FromBuilder;
use dns_text::{Scanner, ScannerError, base16, base64};

impl<Octs: FromBuilder + Drop, S: Scanner<Octets = Octs>> ScanRow<S> for Last<RestText<Octs>> {
    fn scan_fields(scanner: &mut S) -> Result<Self, S::Error> {
        Ok(Last(RestText(scanner.scan_octets()?)))
    }
}

impl<Octs: FromBuilder + Drop, S: Scanner<Octets = Octs>> ScanRow<S> for Last<Rest16<Octs>> {
    fn scan_fields(scanner: &mut S) -> Result<Self, S::Error> {
        Ok(Last(Rest16(base16::scan_entry(scanner)?)))
    }
}

impl<Octs: FromBuilder + Drop, S: Scanner<Octets = Octs>> ScanRow<S> for Last<Rest64<Octs>> {
    fn scan_fields(scanner: &mut S) -> Result<Self, S::Error> {
        Ok(Last(Rest64(base64::scan_entry(scanner)?)))
    }
}

/// Each token is a string. One is needed at least.
impl<Octs: FromBuilder + Drop, S: Scanner<Octets = Octs>> ScanRow<S> for Last<Strings<Octs>> {
    fn scan_fields(scanner: &mut S) -> Result<Self, S::Error> {
        if !scanner.continues() {
            return Err(S::Error::end_of_entry());
        }
        Ok(Last(Strings::of_strings(scanner.scan_charstr_entry()?)))
    }
}
