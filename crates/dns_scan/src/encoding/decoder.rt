//! Decoding the texts of an encoding, character by character.
ghost use Rattle.std.specs.Prelude.{◌≡◌, List, ℕ, [], ◌∷◌, ◌++◌, None, Some, Err, IfOk, IfErr, OnOk};
ghost use Rattle.std.specs.Str.{chars};
ghost use Rattle.dns_scan.specs.Base.{Decodes};
ghost use Rattle.dns_scan.specs.Decoding.{Progress, HasRead, NoneIs, WhyRefused, WhyNoText};
ghost use Rattle.dns_scan.specs.declared.encoding.decode_error.DecodeError.{DecodeError};
ghost use Rattle.dns_scan.specs.declared.encoding.decode_error.DecodeError.TheVariants.{ShortInput};

use super::group::Group;
use super::{DecodeError, Encoding};
use dns_name::{EmptyBuilder, FreezeBuilder, FromBuilder, Octets, OctetsBuilder};
use std::alloc::Global;
use std::marker::{Model, PhantomData};

/// A decoder that takes a text character by character.
///
/// A contract sees the whole octets, the bits that wait for the rest of theirs, the pads, and the error that every
/// later call returns.
#[derive(Debug, Drop)]
pub struct Decoder<E: Encoding, Builder: OctetsBuilder> {
    builder: Builder,
    group: Group,
    /// The error that every later call returns, if there was one.
    error: Option<DecodeError>,
    encoding: PhantomData<E>,
}

impl<E: Encoding, Builder: OctetsBuilder> Model for Decoder<E, Builder> {
    ghost Value = { Progress };

    ghost view = { λ decoder. record {
      octets = Builder.list decoder.builder;
      waiting = decoder.group.waiting;
      pads = decoder.group.pads;
      error = decoder.error;
    } };
}

impl<E: Encoding, Builder: OctetsBuilder> Decoder<E, Builder> {
    /// Returns a decoder before its text. The target of the octets grows on this allocator, if it grows at all.
    pub fn new(alloc: Global) -> Self
    where
        Builder: EmptyBuilder,
        ensures { HasRead E.BASE result [] }
    {
        Decoder::from_builder(Builder::empty(alloc))
    }

    /// Returns a decoder before its text. The octets go to the builder, which has none yet.
    pub fn from_builder(builder: Builder) -> Self
        requires { Builder.list builder ≡ [] }
        ensures { HasRead E.BASE result [] }
    {
        Decoder {
            builder,
            group: Group::none(),
            error: None,
            encoding: PhantomData,
        }
    }

    /// Takes the next character. Fails as `decode` does; after an error each call returns it again.
    pub fn push(&mut self, character: char) -> Result<(), DecodeError>
        ensures ok { OnOk result ((text : List ℕ) → HasRead E.BASE self.old text → HasRead E.BASE self.new (text ++ character ∷ [])) }
        ensures why { IfErr result (λ error. self.old.error ≡ None → WhyRefused E.BASE self.old character error) }
        ensures kept { IfErr result (λ error. self.new.error ≡ Some error) }
        ensures again { (error : DecodeError) → self.old.error ≡ Some error → (result ≡ Err error) × (self.new ≡ self.old) }
    {
        if let Some(error) = self.error {
            return Err(error);
        }
        match self.take(character) {
            Ok(()) => Ok(()),
            Err(error) => {
                self.error = Some(error);
                Err(error)
            }
        }
    }

    /// Takes the next character, if there was no error yet.
    fn take(&mut self, character: char) -> Result<(), DecodeError>
        requires { self.old.error ≡ None }
        ensures ok { OnOk result ((text : List ℕ) → HasRead E.BASE self.old text → HasRead E.BASE self.new (text ++ character ∷ [])) }
        ensures why { IfErr result (λ error. WhyRefused E.BASE self.old character error) }
    {
        let Some(octet) = self.group.take(E::BASE, character)? else {
            return Ok(());
        };
        match self.builder.append_slice(&[octet]) {
            Ok(()) => Ok(()),
            Err(_) => Err(DecodeError::ShortBuf),
        }
    }

    /// Returns the octets of the text that it took. Fails with `ShortInput` if the text ends within a group of
    /// characters or before its padding, and with the error that is kept, if any.
    pub fn finalize(self) -> Result<Builder::Octets, DecodeError>
    where
        Builder: FreezeBuilder + Drop,
        ensures ok { IfOk result (λ octets. (text : List ℕ) → HasRead E.BASE self text → Decodes E.BASE text (⟦<Builder::Octets as Octets>⟧.list octets)) }
        ensures short { IfErr result (λ error. self.error ≡ None → (error ≡ ShortInput) × ((text : List ℕ) → HasRead E.BASE self text → NoneIs E.BASE text)) }
        ensures again { (error : DecodeError) → self.error ≡ Some error → result ≡ Err error }
    {
        Ok(self.finish()?.freeze())
    }

    /// Returns what holds the octets, at the end of the text. Fails as `finalize` does.
    fn finish(self) -> Result<Builder, DecodeError>
    where
        Builder: Drop,
        ensures ok { IfOk result (λ builder. (text : List ℕ) → HasRead E.BASE self text → Decodes E.BASE text (Builder.list builder)) }
        ensures short { IfErr result (λ error. self.error ≡ None → (error ≡ ShortInput) × ((text : List ℕ) → HasRead E.BASE self text → NoneIs E.BASE text)) }
        ensures again { (error : DecodeError) → self.error ≡ Some error → result ≡ Err error }
    {
        if let Some(error) = self.error {
            return Err(error);
        }
        if !self.group.is_whole(E::BASE) {
            return Err(DecodeError::ShortInput);
        }
        let Decoder {
            builder,
            group: _,
            error: _,
            encoding: _,
        } = self;
        Ok(builder)
    }
}

/// Decodes a text into the builder, which has no octets yet.
pub(crate) fn decode_into<E: Encoding, Builder: OctetsBuilder + Drop>(
    builder: Builder,
    text: &str,
) -> Result<Builder, DecodeError>
    requires { Builder.list builder ≡ [] }
    ensures ok { IfOk result (λ builder. Decodes E.BASE (chars text.now) (Builder.list builder)) }
    ensures why { IfErr result (WhyNoText E.BASE (chars text.now)) }
{
    let mut decoder = Decoder::<E, Builder>::from_builder(builder);
    for character in text.chars() {
        decoder.push(character)?;
    }
    decoder.finish()
}

/// Decodes a text to its octets.
pub(crate) fn decode<E: Encoding, Octs: FromBuilder>(
    alloc: Global,
    text: &str,
) -> Result<Octs, DecodeError>
where
    Octs::Builder: EmptyBuilder + Drop,
    ensures ok { IfOk result (λ octets. Decodes E.BASE (chars text.now) (Octs.list octets)) }
    ensures why { IfErr result (WhyNoText E.BASE (chars text.now)) }
{
    let builder = decode_into::<E, Octs::Builder>(Octs::Builder::empty(alloc), text)?;
    Ok(Octs::from_builder(builder))
}
