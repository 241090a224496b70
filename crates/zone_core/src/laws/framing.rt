//! Laws of messages in frames on a stream.

ghost use Rattle.std.specs.Prelude.{◌≡◌, ℕ, List};
ghost use Rattle.zone_core.specs.Frames.{Splits};

/// A stream splits in one way into whole messages and less than a whole one.
pub fn two_splits_are_one()
    ensures { (stream : List ℕ) (messages others : List (List ℕ)) (rest other_rest : List ℕ) →
        Splits stream messages rest → Splits stream others other_rest →
        (messages ≡ others) × (rest ≡ other_rest) }
{}
