//! Options, one after another (RFC 6891 6.1.2).
ghost use Rattle.std.specs.Prelude.{◌≡◌, ◌↔◌, List, ℕ, IsTrue, IfOk, OnErr};
ghost use Rattle.dns_header.specs.Opt.{EdnsOption, AreOptions, AreCutOptions, StartsWithOption, options_of};

use dns_name::{OptionCode, Parser, ShortInput};
use std::marker::Model;

/// An iterator over the code and the octets of each option. Contracts see the list of the remaining options.
#[derive(Debug, Drop)]
pub struct OptIter<'a> {
    octets: &'a [u8],
}

impl<'a> Model for OptIter<'a> {
    ghost Value = { List EdnsOption };

    ghost view = { λ it. options_of it.octets.now };

    ghost invariant = { λ it. AreCutOptions it.octets.now };
}

impl<'a> OptIter<'a> {
    /// Returns an iterator over the options in the octets, which must be whole options.
    pub(super) fn over(octets: &'a [u8]) -> Self
        requires { AreCutOptions octets.now }
        ensures { result ≡ options_of octets.now }
    {
        OptIter { octets }
    }
}

impl<'a> Iterator for OptIter<'a> {
    ghost use Rattle.std.specs.Iterator.{YieldsFirstBy, item_count};

    type Item = (OptionCode, &'a [u8]);

    ghost next_gives = { YieldsFirstBy (λ found. record { code = found.0; octets = found.1.now }) (λ options. options) };

    ghost remaining = { item_count (λ options. options) };

    fn next(&mut self) -> Option<(OptionCode, &'a [u8])> {
        match split_option(self.octets) {
            Ok((code, octets, behind)) => {
                self.octets = behind;
                Some((code, octets))
            }
            Err(_) => None,
        }
    }
}

/// Returns whether the octets are whole options.
pub(super) fn are_options(octets: &[u8]) -> bool
    ensures { IsTrue result ↔ AreOptions octets.now }
{
    let mut rest = octets;
    while !rest.is_empty() {
        let Ok((_, _, behind)) = split_option(rest) else {
            return false;
        };
        rest = behind;
    }
    true
}

/// Returns the code and the octets of the option at the start, and what follows it. Fails if no whole option is there.
fn split_option(octets: &[u8]) -> Result<(OptionCode, &[u8], &[u8]), ShortInput>
    ensures ok { IfOk result (λ found. StartsWithOption octets.now (record { code = found.0; octets = found.1.now }) found.2.now) }
    ensures err { OnErr result ((option : EdnsOption) (rest : List ℕ) → StartsWithOption octets.now option rest → ⊥) }
{
    let mut parser = Parser::from_ref(octets);
    let code = parser.parse_u16_be()?;
    let len = parser.parse_u16_be()?;
    let value = parser.parse_octets(usize::from(len))?;
    Ok((OptionCode::from_int(code), value, parser.peek_all()))
}
