//! Writing questions.
ghost use Rattle.std.specs.Prelude.{◌≡◌, ◌++◌, Err, length, OnOk, OnErr};
ghost use Rattle.std.specs.Int.{to_be_bytes, w16};
ghost use Rattle.dns_octets.specs.Builder.{GrowsTo, IsPast};
ghost use Rattle.dns_octets.specs.declared.error.AppendError.TheVariants.{ShortBuf, BadLength};
ghost use Rattle.dns_name.specs.Page.{write};
ghost use Rattle.dns_name.specs.RecordData.{page_of};
ghost use Rattle.dns_header.specs.Question as spec;
ghost use Rattle.dns_header.specs.Question.{question_parts};
ghost use Rattle.dns_header.specs.QuestionParts.{question_of};

use super::Question;
use dns_name::{AppendError, Class, Composer, Rtype, ToName};

/// What can be written as a question; `question` is that question.
pub trait ComposeQuestion {
    ghost question: { Self → spec.Question };

    /// Appends the question, all or nothing. Fails with `ShortBuf` only if the target is too full, and with
    /// `OutOfMemory` only if out of memory.
    fn compose_question<Target: Composer>(&self, target: &mut Target) -> Result<(), AppendError>
        ensures ok { OnOk result (page_of (Target.list target.new) (Target.known target.new)
            ≡ write Target.spelling (page_of (Target.list target.old) (Target.known target.old)) (question_parts (question self.now))) }
        ensures err { OnErr result ((Target.list target.new ≡ Target.list target.old)
            × (Target.known target.new ≡ Target.known target.old)) }
        ensures grows { GrowsTo (Target.list target.old) (Target.known target.old) (Target.list target.new)
            (Target.known target.new) }
        ensures short { result ≡ Err ShortBuf → IsPast (Target.bound target.old)
            (length (write Target.spelling (page_of (Target.list target.old) (Target.known target.old))
            (question_parts (question self.now))).octets) }
        ensures not_bad { result ≡ Err BadLength → ⊥ }
        ensures same_bound { Target.bound target.new ≡ Target.bound target.old }
        ensures stays { Target.stays target.old target.new };
}

impl<Q: ComposeQuestion> ComposeQuestion for &Q {
    ghost question = { λ asked. Q.question asked.now };

    fn compose_question<Target: Composer>(&self, target: &mut Target) -> Result<(), AppendError> {
        (**self).compose_question(target)
    }
}

impl<N: ToName> ComposeQuestion for Question<N> {
    ghost question = { question_of N.name };

    fn compose_question<Target: Composer>(&self, target: &mut Target) -> Result<(), AppendError> {
        self.compose(target)
    }
}

impl<N: ToName> ComposeQuestion for (N, Rtype, Class) {
    ghost question = { λ asked. record { name = N.name asked.0; qtype = asked.1; qclass = asked.2 } };

    fn compose_question<Target: Composer>(&self, target: &mut Target) -> Result<(), AppendError> {
        compose_parts(&self.0, self.1, self.2, target)
    }
}

/// Of class IN.
impl<N: ToName> ComposeQuestion for (N, Rtype) {
    ghost question = { λ asked. record { name = N.name asked.0; qtype = asked.1; qclass = 1 } };

    fn compose_question<Target: Composer>(&self, target: &mut Target) -> Result<(), AppendError> {
        compose_parts(&self.0, self.1, Class::IN, target)
    }
}

impl<N: ToName> Question<N> {
    /// Appends the question, all or nothing. Fails with `ShortBuf` only if the target is too full, and with
    /// `OutOfMemory` only if out of memory.
    pub fn compose<Target: Composer>(&self, target: &mut Target) -> Result<(), AppendError>
        ensures ok { OnOk result (page_of (Target.list target.new) (Target.known target.new)
            ≡ write Target.spelling (page_of (Target.list target.old) (Target.known target.old))
            (question_parts (question_of N.name self.now))) }
        ensures err { OnErr result ((Target.list target.new ≡ Target.list target.old)
            × (Target.known target.new ≡ Target.known target.old)) }
        ensures grows { GrowsTo (Target.list target.old) (Target.known target.old) (Target.list target.new)
            (Target.known target.new) }
        ensures short { result ≡ Err ShortBuf → IsPast (Target.bound target.old)
            (length (write Target.spelling (page_of (Target.list target.old) (Target.known target.old))
            (question_parts (question_of N.name self.now))).octets) }
        ensures not_bad { result ≡ Err BadLength → ⊥ }
        ensures same_bound { Target.bound target.new ≡ Target.bound target.old }
        ensures stays { Target.stays target.old target.new }
    {
        compose_parts(&self.qname, self.qtype, self.qclass, target)
    }
}

/// Appends a name, a type and a class, all or nothing.
fn compose_parts<N: ToName, Target: Composer>(
    qname: &N,
    qtype: Rtype,
    qclass: Class,
    target: &mut Target,
) -> Result<(), AppendError>
    ensures ok { OnOk result (page_of (Target.list target.new) (Target.known target.new)
        ≡ write Target.spelling (page_of (Target.list target.old) (Target.known target.old))
        (question_parts (record { name = N.name qname.now; qtype = qtype; qclass = qclass }))) }
    ensures err { OnErr result ((Target.list target.new ≡ Target.list target.old)
        × (Target.known target.new ≡ Target.known target.old)) }
    ensures grows { GrowsTo (Target.list target.old) (Target.known target.old) (Target.list target.new)
        (Target.known target.new) }
    ensures short { result ≡ Err ShortBuf → IsPast (Target.bound target.old)
        (length (write Target.spelling (page_of (Target.list target.old) (Target.known target.old))
        (question_parts (record { name = N.name qname.now; qtype = qtype; qclass = qclass }))).octets) }
    ensures not_bad { result ≡ Err BadLength → ⊥ }
    ensures same_bound { Target.bound target.new ≡ Target.bound target.old }
    ensures stays { Target.stays target.old target.new }
{
    let len = target.octets().len();
    match append_parts(qname, qtype, qclass, target) {
        Ok(()) => Ok(()),
        Err(error) => {
            target.truncate(len);
            Err(error)
        }
    }
}

/// Appends a name, a type and a class, or as much of them as there is room for.
fn append_parts<N: ToName, Target: Composer>(
    qname: &N,
    qtype: Rtype,
    qclass: Class,
    target: &mut Target,
) -> Result<(), AppendError>
    ensures ok { OnOk result (page_of (Target.list target.new) (Target.known target.new)
        ≡ write Target.spelling (page_of (Target.list target.old) (Target.known target.old))
        (question_parts (record { name = N.name qname.now; qtype = qtype; qclass = qclass }))) }
    ensures grows { GrowsTo (Target.list target.old) (Target.known target.old) (Target.list target.new)
        (Target.known target.new) }
    ensures short { result ≡ Err ShortBuf → IsPast (Target.bound target.old)
        (length (write Target.spelling (page_of (Target.list target.old) (Target.known target.old))
        (question_parts (record { name = N.name qname.now; qtype = qtype; qclass = qclass }))).octets) }
    ensures not_bad { result ≡ Err BadLength → ⊥ }
    ensures same_bound { Target.bound target.new ≡ Target.bound target.old }
    ensures stays { Target.stays target.old target.new }
{
    target.append_compressed_name(qname)?;
    target.append_slice(&four_octets(qtype, qclass))?;
    Ok(())
}

/// Returns the octets of a type and a class.
pub(super) fn four_octets(qtype: Rtype, qclass: Class) -> [u8; 4]
    ensures { result ≡ to_be_bytes w16 qtype ++ to_be_bytes w16 qclass }
{
    let [high, low] = qtype.to_int().to_be_bytes();
    let [class_high, class_low] = qclass.to_int().to_be_bytes();
    [high, low, class_high, class_low]
}
