//! Copying records from a message.
ghost use Rattle.std.specs.Prelude.{IfOk, IfErr, OnOk};
ghost use Rattle.dns_sections.specs.Copied.{CopiesFirst, CopiesSection, Stops, StopsAt};
ghost use Rattle.dns_sections.specs.Cursor.{Cursor, IsSpent};
ghost use Rattle.dns_sections.specs.Message.{octets_in};
ghost use Rattle.dns_sections.specs.Seen.{records_at};
ghost use Rattle.dns_sections.specs.declared.section.Section.TheVariants.{Answer, Authority, Additional};

use crate::{CopyRecordsError, Message, RecordSection, RecordTarget};
use dns_header::{ComposeRecord, ParsedRecord};
use dns_name::Octets;

/// The target of the section after that of `T`.
type Second<T> = <T as RecordTarget>::Next;

/// The target of the section after that.
type Third<T> = <Second<T> as RecordTarget>::Next;

impl<Octs: Octets> Message<Octs> {
    /// Copies the records of the three sections into a target, section by section and in their order (RFC 1035 4.1).
    ///
    /// For each record `op` returns what is pushed to the target, or None to leave it out. Returns the target of the
    /// last section. Fails with `Parse` if a section cannot be reached or a record does not parse, and with `Push` if
    /// the target does not take what is pushed: with whichever comes first, after everything before it is copied.
    pub fn copy_records<'s, T, R, F>(
        &'s self,
        target: T,
        mut op: F,
    ) -> Result<Third<T>, CopyRecordsError>
    where
        T: RecordTarget,
        Second<T>: RecordTarget,
        Third<T>: RecordTarget,
        R: ComposeRecord + Drop,
        F: FnMut(ParsedRecord<'s>) -> Option<R>,
        requires { F.IsAlwaysCallable op }
        ensures ok { IfOk result (λ copied. (op1 : F) × (op2 : F) × (op3 : F) × (one : T) × (two : T.Next) × (begun : T.Next)
            × (three : T.Next.Next) × CopiesSection F.step R.written T.pushes (octets_in Octs.list self.now) Answer (op, target) (op1, one)
            × T.leads_to one two
            × CopiesSection F.step R.written T.Next.pushes (octets_in Octs.list self.now) Authority (op1, two) (op2, begun)
            × T.Next.leads_to begun three
            × CopiesSection F.step R.written T.Next.Next.pushes (octets_in Octs.list self.now) Additional (op2, three) (op3, copied)) }
        ensures err { IfErr result (Stops F.step R.written T.pushes T.leads_to T.Next.pushes T.Next.leads_to T.Next.Next.pushes
            (octets_in Octs.list self.now) (op, target)) }
    {
        let mut target = target;
        let answer = self.answer()?;
        copy_section(answer, &mut target, &mut op)?;
        let mut target = target.into_next();
        let authority = answer.following()?;
        copy_section(authority, &mut target, &mut op)?;
        let mut target = target.into_next();
        let additional = authority.following()?;
        copy_section(additional, &mut target, &mut op)?;
        Ok(target)
    }
}

/// Copies the remaining records of a section, and fails as `copy_records` does.
fn copy_section<'a, T, R, F>(
    mut section: RecordSection<'a>,
    target: &mut T,
    op: &mut F,
) -> Result<(), CopyRecordsError>
where
    T: RecordTarget,
    R: ComposeRecord + Drop,
    F: FnMut(ParsedRecord<'a>) -> Option<R>,
    requires { F.IsAlwaysCallable op.old }
    ensures callable { F.IsAlwaysCallable op.new }
    ensures ok { OnOk result ((new : Cursor) × IsSpent new
        × CopiesFirst F.step R.written T.pushes (records_at section.entry).cursor (op.old, target.old) (op.new, target.new) new) }
    ensures err { IfErr result (StopsAt F.step R.written T.pushes (records_at section.entry).cursor (op.old, target.old)) }
{
    while let Some(record) = section.next() {
        if let Some(copy) = op(record?) {
            target.push_record(&copy)?;
        }
    }
    Ok(())
}
