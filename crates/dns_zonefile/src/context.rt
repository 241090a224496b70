//! What the rows of a zone file set for the rows after them (RFC 1035 5.1, RFC 2308 4).
ghost use Rattle.std.specs.Prelude.{◌≡◌, ◌<◌, ◌^◌, ◌++◌, List, ℕ, Some, None, true, false, IfOk, IfErr, OnOk, OnErr, option_map, unwrap_or};
ghost use Rattle.std.specs.Option.{option_or};
ghost use Rattle.dns_label.specs.Name.{IsName, wire};
ghost use Rattle.dns_entry_scanner.specs.EntryError.{is_memory};
ghost use Rattle.dns_zonefile.specs.ComposedRow.{BeginsWithName};
ghost use Rattle.dns_zonefile.specs.Entry as spec;
ghost use Rattle.dns_zonefile.specs.Entry.{Enters, at_start};
ghost use Rattle.dns_zonefile.specs.Seen.{context_of, entry_of, stated_of, statement_of};
ghost use Rattle.dns_zonefile.specs.Statement.Statement.{SetOrigin, StateRecord};

use crate::last_owner::LastOwner;
use crate::{Entry, Stated, Statement};
use dns_entry_scanner::{EntryError, TextName, to_inline_name};
use dns_header::Record;
use dns_name::{Class, Name, Octets, ToName, Ttl};
use std::alloc::Global;

/// What the rows so far have set.
#[derive(Debug, Drop)]
pub(crate) struct Context {
    pub(crate) origin: Option<Name<Vec<u8>>>,
    pub(crate) owner: LastOwner,
    /// The value of `$TTL`.
    pub(crate) default_ttl: Option<Ttl>,
    /// The last TTL that a record stated.
    pub(crate) last_ttl: Ttl,
    pub(crate) class: Option<Class>,
}

/// The class and the TTL of a record, once those that its row states are completed from the context.
#[derive(Clone, Copy)]
pub(crate) struct KnownHead {
    pub(crate) class: Class,
    pub(crate) ttl: Ttl,
    /// The last TTL that a record stated, including this one.
    pub(crate) last_ttl: Ttl,
}

impl Context {
    /// Returns the context at the start of a file, with a TTL of one hour.
    pub(crate) fn new() -> Self
        ensures { context_of result ≡ at_start None None }
    {
        Context {
            origin: None,
            owner: LastOwner::none(),
            default_ttl: None,
            last_ttl: Ttl::HOUR,
            class: None,
        }
    }

    /// Returns the entry of a statement, and applies what it sets. Returns None for a directive.
    ///
    /// Fails with an error other than `OutOfMemory` only if the statement has no entry. The context is then unchanged.
    #[tactic(auto, using(crate::proofs::Entering::statement_enters, crate::proofs::Entering::ttl_enters, crate::proofs::Entering::file_enters))]
    pub(crate) fn enter<N: TextName>(
        &mut self,
        alloc: Global,
        statement: Statement<Vec<u8>, N>,
    ) -> Result<Option<Entry<N>>, EntryError>
        ensures ok { IfOk result (λ entry. Enters (context_of self.old) (statement_of N.name statement) (entry_of N.name entry)
            (context_of self.new)) }
        ensures err { IfErr result (λ error. is_memory error ≡ false → (entry : spec.Entry) (after : spec.Context)
            → Enters (context_of self.old) (statement_of N.name statement) entry after → ⊥) }
        ensures same { OnErr result (self.new ≡ self.old) }
    {
        match statement {
            Statement::SetOrigin(name) => self.enter_origin(alloc, &name),
            Statement::SetTtl(ttl) => {
                self.default_ttl = Some(ttl);
                Ok(None)
            }
            Statement::NameFile(path, origin) => Ok(Some(Entry::Include { path, origin })),
            Statement::StateRecord(stated) => self.enter_record(alloc, stated),
        }
    }

    /// Sets the origin. Fails with `OutOfMemory` if out of memory, and then changes nothing.
    #[tactic(auto, using(crate::proofs::Entering::origin_enters))]
    fn enter_origin<N: TextName>(
        &mut self,
        alloc: Global,
        name: &N,
    ) -> Result<Option<Entry<N>>, EntryError>
        ensures ok { IfOk result (λ entry. Enters (context_of self.old) (SetOrigin (N.name name.now)) (entry_of N.name entry)
            (context_of self.new)) }
        ensures err { IfErr result (λ error. (is_memory error ≡ true) × (self.new ≡ self.old)) }
        ensures none { IfOk result (λ entry. entry ≡ None) }
    {
        self.origin = Some(name.to_vec(alloc)?);
        Ok(None)
    }

    /// Returns the record that a row states, and applies what it sets.
    ///
    /// Fails with an error other than `OutOfMemory` only if the record has no owner or no class in the context, or
    /// states a class other than the known one. The context is then unchanged.
    #[tactic(auto, using(crate::proofs::Entering::record_taken_over, crate::proofs::Entering::no_class_enters, crate::proofs::Entering::no_owner_enters))]
    fn enter_record<N: TextName>(
        &mut self,
        alloc: Global,
        stated: Stated<Vec<u8>, N>,
    ) -> Result<Option<Entry<N>>, EntryError>
        ensures ok { IfOk result (λ entry. Enters (context_of self.old) (StateRecord (stated_of N.name stated)) (entry_of N.name entry)
            (context_of self.new)) }
        ensures err { IfErr result (λ error. is_memory error ≡ false → (entry : spec.Entry) (after : spec.Context)
            → Enters (context_of self.old) (StateRecord (stated_of N.name stated)) entry after → ⊥) }
        ensures same { OnErr result (self.new ≡ self.old) }
    {
        let Stated {
            owner,
            ttl,
            class,
            rdata,
        } = stated;
        let known = match self.head_of(ttl, class) {
            Ok(known) => known,
            Err(error) => return Err(error),
        };
        let owner = match self.owner_of(alloc, owner) {
            Ok(owner) => owner,
            Err(error) => return Err(error),
        };
        let last_owner = to_inline_name(&owner);
        let resource = Record::new(owner, known.class, known.ttl, rdata);
        self.take_over(&last_owner, known.last_ttl, known.class);
        Ok(Some(Entry::Record(resource)))
    }

    /// Applies what a record sets.
    pub(crate) fn take_over<Octs: Octets>(
        &mut self,
        owner: &Name<Octs>,
        last_ttl: Ttl,
        class: Class,
    )
        ensures { context_of self.new ≡ record (context_of self.old) {
          owner = Some owner.now;
          last_ttl = last_ttl;
          class = Some class;
        } }
    {
        self.owner.set(owner);
        self.take_over_head(last_ttl, class);
    }

    /// Applies what a record sets whose owner is the first `len` octets.
    pub(crate) fn take_over_first(&mut self, octets: &[u8], len: usize, last_ttl: Ttl, class: Class)
        requires { (name : List (List ℕ)) × BeginsWithName octets.now len name }
        ensures { (name : List (List ℕ)) → BeginsWithName octets.now len name → context_of self.new ≡ record (context_of self.old) {
          owner = Some name;
          last_ttl = last_ttl;
          class = Some class;
        } }
    {
        self.owner.set_first(octets, len);
        self.take_over_head(last_ttl, class);
    }

    /// Applies what a record sets beside its owner.
    fn take_over_head(&mut self, last_ttl: Ttl, class: Class)
        ensures { context_of self.new ≡ record (context_of self.old) {
          last_ttl = last_ttl;
          class = Some class;
        } }
    {
        self.last_ttl = last_ttl;
        self.class = Some(class);
    }

    /// Returns the class and the TTL of a record. `ttl` and `class` are those that its row states.
    ///
    /// Fails with `Custom` if no class is stated or known, or if the stated one is not the known one.
    pub(crate) fn head_of(
        &self,
        ttl: Option<Ttl>,
        class: Option<Class>,
    ) -> Result<KnownHead, EntryError>
        ensures class { IfOk result (λ head. (option_or class self.now.class ≡ Some head.class)
            × (option_or self.now.class class ≡ Some head.class)) }
        ensures ttl { IfOk result (λ head. head.ttl ≡ unwrap_or (option_or ttl self.now.default_ttl) self.now.last_ttl) }
        ensures last_ttl { IfOk result (λ head. head.last_ttl ≡ unwrap_or ttl self.now.last_ttl) }
        ensures fits { IfOk result (λ head. (head.class < 2 ^ 16) × (head.ttl < 2 ^ 32)) }
        ensures err { IfErr result (λ error. (is_memory error ≡ false) × ((number : ℕ) → option_or class self.now.class ≡ Some number
            → option_or self.now.class class ≡ Some number → ⊥)) }
    {
        let class = match agreed_class(self.class, class) {
            Ok(class) => class,
            Err(error) => return Err(error),
        };
        let (ttl, last_ttl) = match ttl {
            Some(stated) => (stated, stated),
            None => (self.default_ttl.unwrap_or(self.last_ttl), self.last_ttl),
        };
        Ok(KnownHead {
            class,
            ttl,
            last_ttl,
        })
    }

    /// Appends the octets of the owner of the last record.
    ///
    /// Fails with an error other than `OutOfMemory` only if there is none. Nothing is then appended.
    pub(crate) fn append_last_owner(&self, octets: &mut Vec<u8>) -> Result<(), EntryError>
        ensures ok { OnOk result ((name : List (List ℕ)) × (self.now.owner ≡ Some name) × IsName name
            × (octets.new.items ≡ octets.old.items ++ wire name)) }
        ensures err { IfErr result (λ error. is_memory error ≡ false → self.now.owner ≡ None) }
        ensures same { OnErr result (octets.new.items ≡ octets.old.items) }
    {
        match self.owner.get() {
            Some(owner) => append_name(&owner, octets),
            None => Err(EntryError::Custom("no owner stated before")),
        }
    }

    /// Returns the owner of a record: the one that its row states, or the last one.
    ///
    /// Fails with an error other than `OutOfMemory` only if there is neither.
    fn owner_of<N: TextName>(&self, alloc: Global, stated: Option<N>) -> Result<N, EntryError>
        ensures ok { IfOk result (λ owner. option_or (option_map N.name stated) self.now.owner ≡ Some (N.name owner)) }
        ensures err { IfErr result (λ error. is_memory error ≡ false → option_or (option_map N.name stated) self.now.owner ≡ None) }
    {
        match stated {
            Some(owner) => Ok(owner),
            None => self.last_owner(alloc),
        }
    }

    /// Returns the owner of the last record. Fails with an error other than `OutOfMemory` only if there is none.
    fn last_owner<N: TextName>(&self, alloc: Global) -> Result<N, EntryError>
        ensures ok { IfOk result (λ owner. self.now.owner ≡ Some (N.name owner)) }
        ensures err { IfErr result (λ error. is_memory error ≡ false → self.now.owner ≡ None) }
    {
        let Some(owner) = self.owner.get() else {
            return Err(EntryError::Custom("no owner stated before"));
        };
        Ok(N::of_name(alloc, &owner)?)
    }
}

/// Appends the octets of a name. Fails with `OutOfMemory` if out of memory, and then changes nothing.
fn append_name(name: &Name<&[u8]>, octets: &mut Vec<u8>) -> Result<(), EntryError>
    ensures ok { OnOk result (IsName name.now × (octets.new.items ≡ octets.old.items ++ wire name.now)) }
    ensures err { IfErr result (λ error. is_memory error ≡ true) }
    ensures same { OnErr result (octets.new.items ≡ octets.old.items) }
{
    Ok(octets.extend_from_slice(name.as_slice())?)
}

/// Returns the class of a record, given the known class and the one that its row states. Fails with `Custom` if they
/// differ, or if there is neither.
fn agreed_class(known: Option<Class>, stated: Option<Class>) -> Result<Class, EntryError>
    ensures ok { IfOk result (λ class. (option_or stated known ≡ Some class) × (option_or known stated ≡ Some class)) }
    ensures err { IfErr result (λ error. (is_memory error ≡ false)
        × ((class : ℕ) → option_or stated known ≡ Some class → option_or known stated ≡ Some class → ⊥)) }
{
    match (known, stated) {
        (Some(known), Some(stated)) => {
            if known != stated {
                return Err(EntryError::Custom("another class"));
            }
            Ok(known)
        }
        (Some(class), None) | (None, Some(class)) => Ok(class),
        (None, None) => Err(EntryError::Custom("no class stated")),
    }
}
