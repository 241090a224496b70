//! Values that are read from the tokens of an entry.
ghost use Rattle.std.specs.Prelude.{◌≡◌, List, false, IfOk, IfErr, OnErr};
ghost use Rattle.dns_scan.specs.Token.{Token, IsEnding, SameNames};

mod iter_scanner;
mod numbers;
mod scanner;
mod scanner_error;
mod spelled;
mod unknown_data;
mod values;

pub use iter_scanner::IterScanner;
pub use scanner::Scanner;
pub use scanner_error::{ScannerError, StrError};
pub use unknown_data::{scan_unknown_octets, scan_without_marker};

/// A value that is read from the tokens of an entry.
///
/// `scans` says of a scanner that the tokens before those left are the value's.
pub trait Scan<S: Scanner>: Sized {
    ghost scans: { S → Self → List Token → Type 0 };

    /// Reads the value, and takes its tokens.
    ///
    /// Fails with an error other than `short_buf` only if the tokens do not begin with such a value; the tokens left
    /// are then a suffix of those left before.
    fn scan(scanner: &mut S) -> Result<Self, S::Error>
        ensures ok { IfOk result (λ value. scans scanner.old value (S.tokens scanner.new)) }
        ensures err { IfErr result (λ error. S.Error.is_short error ≡ false → (value : Self) (left : List Token) → scans scanner.old value left → ⊥) }
        ensures left { OnErr result (IsEnding (S.tokens scanner.new) (S.tokens scanner.old)) }
        ensures names { SameNames (S.names scanner.old) (S.names scanner.new) };
}
