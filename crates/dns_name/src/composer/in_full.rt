//! Names in full, for targets that remember nothing.
ghost use Rattle.std.specs.Prelude.{◌≡◌, ◌++◌, ◌∷◌, [], Err, length, OnOk, OnErr};
ghost use Rattle.dns_octets.specs.Builder.{GrowsTo, IsWithin, IsPast};
ghost use Rattle.dns_octets.specs.declared.error.AppendError.TheVariants.{ShortBuf, BadLength};
ghost use Rattle.dns_label.specs.Label.{label_octets};
ghost use Rattle.dns_label.specs.Name.{wire};

use dns_flat::ToName;
use dns_label::Label;
use dns_octets::{AppendError, OctetsBuilder, Truncate};

/// Appends the labels and the root, all or nothing.
#[tactic(auto, using(crate::proofs::Growth::growth_rules))]
pub fn append_in_full<T: Truncate, N: ToName>(target: &mut T, name: &N) -> Result<(), AppendError>
    requires { T.known target.old ≡ [] }
    ensures ok { OnOk result (T.list target.new ≡ T.list target.old ++ wire (N.name name.now)) }
    ensures err { OnErr result (T.list target.new ≡ T.list target.old) }
    ensures known { T.known target.new ≡ [] }
    ensures grows { GrowsTo (T.list target.old) [] (T.list target.new) [] }
    ensures short { result ≡ Err ShortBuf → IsPast (T.bound target.old) (length (T.list target.old
        ++ wire (N.name name.now))) }
    ensures fits { OnOk result (IsWithin (T.bound target.old) (length (T.list target.new))) }
    ensures not_bad { result ≡ Err BadLength → ⊥ }
    ensures same_bound { T.bound target.new ≡ T.bound target.old }
    ensures stays { T.stays target.old target.new }
{
    if let Some(flat) = name.as_flat_slice() {
        return target.append_slice(flat);
    }
    let len = target.octets().len();
    match append_labels(target, name) {
        Ok(()) => Ok(()),
        Err(error) => {
            target.truncate(len);
            Err(error)
        }
    }
}

/// Appends the labels and the root, or as much of them as there is room for.
fn append_labels<T: OctetsBuilder, N: ToName>(target: &mut T, name: &N) -> Result<(), AppendError>
    ensures ok { OnOk result (T.list target.new ≡ T.list target.old ++ wire (N.name name.now)) }
    ensures known { T.known target.new ≡ T.known target.old }
    ensures grows { GrowsTo (T.list target.old) (T.known target.old) (T.list target.new) (T.known target.new) }
    ensures short { result ≡ Err ShortBuf → IsPast (T.bound target.old) (length (T.list target.old
        ++ wire (N.name name.now))) }
    ensures fits { OnOk result (IsWithin (T.bound target.old) (length (T.list target.new))) }
    ensures not_bad { result ≡ Err BadLength → ⊥ }
    ensures same_bound { T.bound target.new ≡ T.bound target.old }
    ensures stays { T.stays target.old target.new }
{
    for label in name.iter_labels() {
        append_label(target, &label)?;
    }
    Ok(())
}

/// Appends the label after its length, or its length alone if there is room for that alone.
fn append_label<T: OctetsBuilder>(target: &mut T, label: &Label<'_>) -> Result<(), AppendError>
    ensures ok { OnOk result (T.list target.new ≡ T.list target.old
        ++ length (label_octets label.now) ∷ label_octets label.now) }
    ensures known { T.known target.new ≡ T.known target.old }
    ensures grows { GrowsTo (T.list target.old) (T.known target.old) (T.list target.new) (T.known target.new) }
    ensures short { result ≡ Err ShortBuf → IsPast (T.bound target.old) (length (T.list target.old
        ++ length (label_octets label.now) ∷ label_octets label.now)) }
    ensures fits { OnOk result (IsWithin (T.bound target.old) (length (T.list target.new))) }
    ensures not_bad { result ≡ Err BadLength → ⊥ }
    ensures same_bound { T.bound target.new ≡ T.bound target.old }
    ensures stays { T.stays target.old target.new }
{
    target.append_slice(&[label.len() as u8])?;
    target.append_slice(label.as_slice())?;
    Ok(())
}
