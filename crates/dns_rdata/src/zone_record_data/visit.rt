//! What is done with data of any type, once for all types that have fields.
ghost use Rattle.std.specs.Prelude.{IfSome, IfNone};
ghost use Rattle.dns_rdata.specs.Data.{Data, typed, unknown_data, AreOfOneKind};
ghost use Rattle.dns_rdata.specs.ZoneData.{data_of};

use super::ZoneRecordData;
use dns_name::{Octets, ToName, UnknownRecordData};
use dns_rr_data::TypedData;

/// The arms of `visit`.
macro_rules! visited {
    (($this:ident, $V:ident, $state:ident) $($variant:ident = $rtype:ident: $row:ty,)*) => {
        match $this {
            $(ZoneRecordData::$variant(rdata) => $V::fields(rdata, $state),)*
            ZoneRecordData::Unknown(rdata) => $V::unknown(rdata, $state),
        }
    };
}

/// The arms of `visit_both`.
macro_rules! both_visited {
    (($this:ident, $other:ident, $V:ident) $($variant:ident = $rtype:ident: $row:ty,)*) => {
        match ($this, $other) {
            $((ZoneRecordData::$variant(one), ZoneRecordData::$variant(two)) => {
                Some($V::fields(one, two))
            })*
            (ZoneRecordData::Unknown(one), ZoneRecordData::Unknown(two)) => {
                Some($V::unknown(one, two))
            }
            _ => None,
        }
    };
}

/// What is done with data of any type and a state. `answers` relates the state, the data, the answer and the state after it.
pub trait Visit<State> {
    type Answer;

    ghost answers: { State → Data → Self.Answer → State → Type 0 };

    /// Does it with data that has fields.
    fn fields<D: TypedData>(rdata: &D, state: &mut State) -> Self::Answer
        ensures { answers state.old (typed D.Type.number (D.held rdata.now)) result state.new };

    /// Does it with unknown data.
    fn unknown<Octs: Octets>(rdata: &UnknownRecordData<Octs>, state: &mut State) -> Self::Answer
        ensures { answers state.old (unknown_data rdata.now) result state.new };
}

/// What is done with two values of data of one type, both with fields or both unknown.
pub trait VisitBoth {
    type Answer;

    ghost answers: { Data → Data → Self.Answer → Type 0 };

    /// Does it with data that has fields.
    fn fields<D: TypedData>(one: &D, two: &D) -> Self::Answer
        ensures { answers (typed D.Type.number (D.held one.now)) (typed D.Type.number (D.held two.now)) result };

    /// Does it with unknown data.
    fn unknown<Octs: Octets>(
        one: &UnknownRecordData<Octs>,
        two: &UnknownRecordData<Octs>,
    ) -> Self::Answer
        ensures { answers (unknown_data one.now) (unknown_data two.now) result };
}

impl<Octs: Octets, N: ToName> ZoneRecordData<Octs, N> {
    /// Does with the data what is done with its variant's.
    pub(super) fn visit<V: Visit<State>, State>(&self, state: &mut State) -> V::Answer
        ensures { V.answers state.old (data_of self.now) result state.new }
    {
        with_types!(visited, self, V, state)
    }

    /// Does with both what is done with their variant's, or returns None if one has fields and the other not, or fields of
    /// another type. Unknown data is visited whatever the types.
    pub(super) fn visit_both<V: VisitBoth>(&self, other: &Self) -> Option<V::Answer>
        ensures some { IfSome result (V.answers (data_of self.now) (data_of other.now)) }
        ensures none { IfNone result (AreOfOneKind (data_of self.now) (data_of other.now) → ⊥) }
    {
        with_types!(both_visited, self, other, V)
    }
}
