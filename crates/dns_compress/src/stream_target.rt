//! Messages as TCP carries them (RFC 1035 4.2.2, RFC 7766 8).
//!
//! ```text
//! +--------+--------+-----------------+
//! | length | length | message         |
//! +--------+--------+-----------------+
//!   high     low      `length` octets
//! ```
ghost use Rattle.std.specs.Prelude.{◌≡◌, ◌≤◌, ℕ, [], ◌++◌, ◌<◌, Ok, Err, Some, false, length, drop, IfOk, OnOk, OnErr};
ghost use Rattle.dns_octets.specs.Builder.{GrowsTo, IsWithin, IsPast};
ghost use Rattle.dns_octets.specs.declared.error.AppendError.TheVariants.{ShortBuf, BadLength};
ghost use Rattle.dns_name.specs.Spelling.{compresses, plain};
ghost use Rattle.dns_name.specs.Remembered.{sound_none};
ghost use Rattle.dns_compress.specs.Frame.{frame, message_bound};

use dns_flat::ToName;
use dns_name::Composer;
use dns_octets::{AppendError, Octets, OctetsBuilder, Remembers, Truncate};
use std::alloc::Global;

/// A target for a message of at most 65,535 octets, after its length in two octets.
///
/// Its octets are the message without the length. The length is right after each call, and a call that fails leaves
/// both as they were. The wrapped target must not compress: its pointers would count from the octets of the length. So
/// names are written in full; to compress, wrap a stream target in a compressor.
#[derive(Debug, Drop)]
pub struct StreamTarget<Target: Composer> {
    target: Target,
    ghost plain_target: { compresses Target.spelling ≡ false },
    ghost none_known: { Target.known target ≡ [] },
    ghost framed: { Target.list target ≡ frame (drop 2 (Target.list target)) },
    ghost few: { length (drop 2 (Target.list target)) ≤ 65535 },
    ghost has_length: { (bound : ℕ) → Target.bound target ≡ Some bound → 2 ≤ bound },
}

impl StreamTarget<Vec<u8>> {
    ghost use Rattle.dns_compress.specs.StreamTarget.{message_in};

    /// Returns a stream target with an empty message, in a vector that grows on this allocator. Fails only with
    /// `OutOfMemory`, if out of memory.
    pub fn new_vec(alloc: Global) -> Result<Self, AppendError>
        ensures ok { IfOk result (λ stream. message_in (λ octets. octets.items) stream ≡ []) }
        ensures short { result ≡ Err ShortBuf → ⊥ }
        ensures not_bad { result ≡ Err BadLength → ⊥ }
    {
        StreamTarget::new(Vec::new(alloc))
    }
}

impl<Target: Composer> StreamTarget<Target> {
    ghost use Rattle.dns_compress.specs.StreamTarget.{target_in, message_in};

    /// Empties the target, and returns a stream target with an empty message in it. The target must not compress.
    ///
    /// Fails with `ShortBuf` only if the target may not hold the two octets of the length, and with `OutOfMemory` if
    /// out of memory.
    pub fn new(mut target: Target) -> Result<Self, AppendError>
    where
        Target: Drop,
        requires { compresses Target.spelling ≡ false }
        ensures ok { IfOk result (λ stream. message_in Target.list stream ≡ []) }
        ensures same_bound { IfOk result (λ stream. Target.bound (target_in stream) ≡ Target.bound target) }
        ensures stays { IfOk result (λ stream. Target.stays target (target_in stream)) }
        ensures fits { OnOk result (IsWithin (Target.bound target) 2) }
        ensures short { result ≡ Err ShortBuf → IsPast (Target.bound target) 2 }
        ensures not_bad { result ≡ Err BadLength → ⊥ }
    {
        target.truncate(0);
        target.append_slice(&[0, 0])?;
        Ok(StreamTarget { target })
    }

    /// Returns the wrapped target, which holds the length and then the message.
    pub fn as_target(&self) -> &Target
        ensures target { result.now ≡ target_in self.now }
        ensures octets { Target.list result.now ≡ frame (message_in Target.list self.now) }
        ensures known { Target.known result.now ≡ [] }
    {
        &self.target
    }

    /// Returns the wrapped target, which holds the length and then the message.
    pub fn into_target(self) -> Target
        ensures target { result ≡ target_in self }
        ensures octets { Target.list result ≡ frame (message_in Target.list self) }
        ensures known { Target.known result ≡ [] }
    {
        let StreamTarget { target } = self;
        target
    }

    /// Returns the length and then the message, as a stream transport sends them.
    pub fn as_stream_slice(&self) -> &[u8]
        ensures { result.now ≡ frame (message_in Target.list self.now) }
    {
        self.target.octets()
    }

    /// Returns the message without its length, as a datagram transport sends it.
    pub fn as_dgram_slice(&self) -> &[u8]
        ensures octets { result.now ≡ message_in Target.list self.now }
        ensures few { length result.now ≤ 65535 }
    {
        &self.target.octets()[2..]
    }
}

/// Writes the number of the octets that follow into the first two octets.
fn write_length<Target: Composer>(target: &mut Target)
    requires some { 2 ≤ length (Target.list target.old) }
    requires few { length (drop 2 (Target.list target.old)) ≤ 65535 }
    requires none_known { Target.known target.old ≡ [] }
    ensures octets { Target.list target.new ≡ frame (drop 2 (Target.list target.old)) }
    ensures known { Target.known target.new ≡ [] }
    ensures same_bound { Target.bound target.new ≡ Target.bound target.old }
    ensures stays { Target.stays target.old target.new }
{
    let len = target.octets().len() - 2;
    target.patch(0, &(len as u16).to_be_bytes());
}

impl<Target: Composer> Octets for StreamTarget<Target> {
    ghost use Rattle.dns_compress.specs.StreamTarget.{message_in};

    ghost list = { message_in Target.list };

    fn octets(&self) -> &[u8] {
        self.as_dgram_slice()
    }
}

impl<Target: Composer> Remembers for StreamTarget<Target> {
    ghost known = { λ _. [] };
}

impl<Target: Composer> OctetsBuilder for StreamTarget<Target> {
    ghost use Rattle.dns_compress.specs.StreamTarget.{target_in, message_in};

    ghost bound = { λ stream. message_bound (Target.bound (target_in stream)) };

    ghost stays = { λ old new. Target.stays (target_in old) (target_in new) };

    ghost stays_on = { λ a b c first second. Target.stays_on (target_in a) (target_in b) (target_in c) first second };

    ghost stays_here = { λ a. Target.stays_here (target_in a) };

    fn append_slice(&mut self, octets: &[u8]) -> Result<(), AppendError>
        ensures ok { OnOk result (message_in Target.list self.new ≡ message_in Target.list self.old ++ octets.now) }
        ensures err { OnErr result (message_in Target.list self.new ≡ message_in Target.list self.old) }
        ensures grows { GrowsTo (message_in Target.list self.old) [] (message_in Target.list self.new) [] }
        ensures short { result ≡ Err ShortBuf → IsPast (message_bound (Target.bound (target_in self.old)))
            (length (message_in Target.list self.old ++ octets.now)) }
        ensures fits { OnOk result (IsWithin (message_bound (Target.bound (target_in self.old)))
            (length (message_in Target.list self.new))) }
        ensures not_bad { result ≡ Err BadLength → ⊥ }
        ensures same_bound { Target.bound (target_in self.new) ≡ Target.bound (target_in self.old) }
        ensures stays { Target.stays (target_in self.old) (target_in self.new) }

        // A message whose length does not fit two octets is too long, even if the target is out of memory.
        ensures full { 65535 < length (message_in Target.list self.old ++ octets.now) → result ≡ Err ShortBuf }
    {
        if octets.len() > 65_535 - self.as_dgram_slice().len() {
            return Err(AppendError::ShortBuf);
        }
        self.target.append_slice(octets)?;
        write_length(&mut self.target);
        Ok(())
    }

    fn len(&self) -> usize {
        self.target.len() - 2
    }
}

impl<Target: Composer> Truncate for StreamTarget<Target> {
    fn truncate(&mut self, len: usize) {
        if len < self.as_dgram_slice().len() {
            self.target.truncate(len + 2);
            write_length(&mut self.target);
        }
    }
}

/// Names are written in full.
impl<Target: Composer> Composer for StreamTarget<Target> {
    ghost use Rattle.dns_compress.specs.StreamTarget.{message_in};

    ghost spelling = { plain };

    fn append_compressed_name<N: ToName>(&mut self, name: &N) -> Result<(), AppendError> {
        name.compose(self)
    }

    fn can_compress(&self) -> bool {
        false
    }

    fn patch(&mut self, place: usize, octets: &[u8]) {
        self.target.patch(place + 2, octets);
    }

    ghost sound = { λ stream. ∣ sound_none plain (message_in Target.list stream) ∣₁ };
}
