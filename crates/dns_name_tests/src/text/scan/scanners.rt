//! Scanners: closures, builders, and the texts of errors that no token causes.
use dns_text::{
    DecodeError, FromStrError, IterScanner, Scanner, ScannerError, StrError, base16, base32, base64,
};
use std::alloc::Global;
use std::test::Fail;

/// Returns a scanner of the words between white space.
pub fn over(alloc: Global, words: &str) -> Result<IterScanner<'_>, StrError> {
    match IterScanner::new(alloc, words.split_whitespace()) {
        Ok(scanner) => Ok(scanner),
        Err(_) => Err(StrError::ShortBuf),
    }
}

#[test]
fn a_word_is_handed_to_a_closure(rt: HostRuntime) -> Result<(), Fail> {
    let mut scanner = over(rt.alloc(), "abc def")?;
    assert!(rt; scanner.scan_ascii_str(|word| Some(word.len())) == Ok(3));
    let refused = Err(StrError::Custom("invalid word"));
    assert!(rt; scanner.scan_ascii_str(|_| None::<usize>) == refused);
    Ok(())
}

#[test]
fn decoders_over_a_scanners_builder(rt: HostRuntime) -> Result<(), Fail> {
    let mut scanner = over(rt.alloc(), "")?;
    let mut decoder_16 = base16::Decoder::from_builder(scanner.octets_builder()?);
    decoder_16.push('6')?;
    decoder_16.push('F')?;
    assert!(rt; decoder_16.finalize()?.as_slice() == b"o".as_slice());
    let decoder_32 = base32::Decoder::from_builder(scanner.octets_builder()?);
    assert!(rt; decoder_32.finalize()?.is_empty());
    let decoder_64 = base64::Decoder::from_builder(scanner.octets_builder()?);
    assert!(rt; decoder_64.finalize()?.is_empty());
    Ok(())
}

#[test]
fn errors_that_no_token_gives_show_what_is_wrong(rt: HostRuntime) -> Result<(), Fail> {
    let text = format!(in rt.alloc();
        "{}, {}, {}, {}, {}, {}",
        <StrError as ScannerError>::custom("bad word"),
        <StrError as ScannerError>::end_of_entry(),
        <StrError as ScannerError>::short_buf(),
        <StrError as ScannerError>::trailing_tokens(),
        DecodeError::ShortBuf,
        FromStrError::ShortBuf
    )?;
    assert!(rt;
        text.as_str()
            == "bad word, unexpected end of entry, short buffer, trailing tokens, short buffer, short buffer"
    );
    Ok(())
}
