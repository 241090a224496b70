//! Strings, scanners and converters: octets of several kinds, closures, and errors that no text causes.
mod char_strs;
mod scanners;
mod symbols;
