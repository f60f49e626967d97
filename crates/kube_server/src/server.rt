//! An API server in memory.

ghost use Rattle.std.specs.Prelude.{◌≡◌, ◌↔◌, ◌≤◌, ◌+◌, ◌<◌, ◌^◌, ◌++◌, ◌∷◌, [], map, length, true, false, IfOk, IfErr, IfSome, IsErrOf, OnOk, OnErr, Some, None, Ok, Err, option_map, option_copied};
ghost use Rattle.std.specs.Arc.{arc_value};
ghost use Rattle.kube_meta.specs.Keys.{is_named, key_of as reference_of_meta};
ghost use Rattle.kube_meta.specs.Reference.{same_type};
ghost use Rattle.kube_meta.specs.Resources.{dynamic_reference, resource_type};
ghost use Rattle.kube_meta.specs.Reading.{seen_object};
ghost use Rattle.kube_api.specs.Patches.{operation_of};
ghost use Rattle.kube_api.specs.declared.patch.PatchRefusal.TheVariants.{NoMemory as patch_memory, NotFound as patch_missing};
ghost use Rattle.kube_server.specs.History.{key_of, change_seen, object_at, objects_of, state_of, IsNextChange, IsHistory, IsLater};
ghost use Rattle.kube_server.specs.Servers.{ServerState, meta_of, newest, next_revision, reference_key, held_under, held, held_object, IsStep, IsAtMostStep, IsMade, IsHeldAnd, IsPatched, put_change, remove_change, deletion, patch_change, IsPatchRefusal, compacted_to, removal};
ghost use Rattle.kube_server.specs.Stored.{change_of, key_at};

use crate::entry::Entry;
use crate::object::{deleting, has_finalizers, is_gone, put_entry, versioned};
use crate::objects::Objects;
use crate::place::{Place, place_named, place_of};
use kube_api::{Patch, PatchRefusal, apply_patch};
use kube_meta::{
    ApiResource, DynamicObject, Moment, NoMemory, ObjectFault, ObjectRef, read_object, write_object,
};
use std::alloc::{AllocError, AllocFailed, Global};
use std::marker::Model;
use std::sync::Arc;
use thiserror::Error;

/// Why a server didn't do what it was asked.
#[derive(Clone, Copy, Debug, PartialEq, Eq, Error)]
pub enum ServerRefusal {
    #[error("out of memory")]
    NoMemory,
    /// There is no object of that reference.
    #[error("NotFound")]
    NotFound,
    /// The object has no name.
    #[error("object has no name")]
    Unnamed,
}

impl From<NoMemory> for ServerRefusal {
    ghost use Rattle.std.specs.Prelude.{◌≡◌};
    ghost use Rattle.kube_server.specs.declared.server.ServerRefusal.TheVariants.{NoMemory};

    ghost from_gives = { λ _ e. e ≡ NoMemory };

    fn from(_error: NoMemory) -> ServerRefusal {
        ServerRefusal::NoMemory
    }
}

/// An API server in memory, of the objects of one type.
///
/// Each change raises the revision by one and is kept, from the first on. An object's version is the decimal text of the
/// revision of its last change. Contracts see the server as its history of changes, and as the revision up to which
/// they count as gone. It keeps no clock.
///
/// Where a call could have no memory, or was refused, all is as before.
#[derive(Drop)]
pub struct Server {
    resource: Arc<ApiResource>,
    objects: Objects,
    log: Vec<Entry>,
    compacted: u64,
}

impl Model for Server {
    ghost use Rattle.kube_server.specs.Servers.{ServerState};

    ghost Value = { ServerState };

    ghost use Rattle.serde_json.specs.contracts.value.Value as json;
    ghost use Rattle.std.specs.Coded.{codes};

    ghost coded = { Prim.hlevel (codes, json.the_row.coded) };

    ghost use Rattle.std.specs.Prelude.{map};
    ghost use Rattle.kube_meta.specs.Resources.{resource_type};
    ghost use Rattle.kube_server.specs.Stored.{change_of};

    ghost view = { λ s. record { kind = resource_type s.resource.value; changes = map change_of s.log.items; compacted = s.compacted } };

    ghost use Rattle.kube_server.specs.Serving.{IsServed};

    ghost invariant = { λ s. IsServed (map change_of s.log.items) s.compacted s.objects };
}

/// Whether two resources name one type.
fn is_same_type(a: &ApiResource, b: &ApiResource) -> bool
    ensures { result ≡ same_type (resource_type a.now) (resource_type b.now) }
{
    a.group == b.group && a.version == b.version && a.kind == b.kind && a.plural == b.plural
}

/// The entry of an object that goes, as it was last.
///
/// Errors: `NoMemory`.
fn removed(alloc: Global, stored: &DynamicObject, revision: u64) -> Result<Entry, NoMemory>
    ensures { IfOk result (λ e. change_seen seen_object (change_of e) ≡ removal revision (seen_object stored.now)) }
{
    let object = versioned(alloc, stored.copy(alloc)?, revision)?;
    Ok(Entry::Deleted(Arc::new(alloc, object)?))
}

/// The entry of a request to delete an object at a moment; none where it is being deleted already and stays.
///
/// Errors: `NoMemory`.
fn deleted(
    alloc: Global,
    stored: &DynamicObject,
    revision: u64,
    now: Moment,
) -> Result<Option<Entry>, NoMemory>
    ensures { IfOk result (λ e. option_map (λ x. change_seen seen_object (change_of x)) e ≡ deletion revision now.0 (seen_object stored.now)) }
{
    if !has_finalizers(&stored.metadata) {
        return Ok(Some(removed(alloc, stored, revision)?));
    }
    if stored.metadata.deletion_timestamp.is_some() {
        return Ok(None);
    }
    let object = deleting(alloc, stored.copy(alloc)?, revision, now)?;
    Ok(Some(Entry::Modified(Arc::new(alloc, object)?)))
}

/// The entry of a patch of an object.
///
/// Errors: those of `apply_patch`.
fn patched(
    alloc: Global,
    stored: &DynamicObject,
    patch: &[Patch],
    revision: u64,
) -> Result<Entry, PatchRefusal>
    requires { length patch.now < 2 ^ 32 }
    ensures ok { IfOk result (λ e. patch_change revision (map operation_of patch.now) (seen_object stored.now) ≡ Ok (change_seen seen_object (change_of e))) }
    ensures refused { IfErr result (λ e. ¬ (e ≡ patch_memory) → patch_change revision (map operation_of patch.now) (seen_object stored.now) ≡ Err e) }
{
    let mut document = write_object(alloc, stored)?;
    apply_patch(alloc, &mut document, patch)?;
    let object = match read_object(alloc, document) {
        Ok(object) => object,
        Err(ObjectFault::NoMemory) => return Err(PatchRefusal::NoMemory),
        Err(_) => return Err(PatchRefusal::NotAnObject),
    };
    let gone = is_gone(&object.metadata);
    let object = shared(alloc, versioned(alloc, object, revision)?)?;
    Ok(if gone {
        Entry::Deleted(object)
    } else {
        Entry::Modified(object)
    })
}

/// The object, to be shared.
///
/// Errors: `NoMemory`; the object is dropped.
fn shared(alloc: Global, object: DynamicObject) -> Result<Arc<DynamicObject>, NoMemory>
    ensures { IfOk result (λ a. arc_value a ≡ object) }
{
    Ok(Arc::new(alloc, object)?)
}

impl Server {
    /// A server of the objects of a type, without any.
    pub fn new(alloc: Global, resource: Arc<ApiResource>) -> Server
        ensures { result ≡ record { kind = resource_type resource.value; changes = []; compacted = 0 } }
    {
        Server {
            resource,
            objects: Objects::new(alloc),
            log: Vec::new(alloc),
            compacted: 0,
        }
    }

    /// Puts an object under its key, and answers the new revision, whose decimal text is its version. An object that
    /// brings no uid keeps that of the object in whose place it comes; a new one gets `uid-<revision>`.
    ///
    /// Errors: `Unnamed` where it has no name, and `NoMemory`. The object is dropped.
    pub fn put(&mut self, alloc: Global, object: DynamicObject) -> Result<u64, ServerRefusal>
        ensures revision { IfOk result (λ r. r ≡ newest self.new) }
        ensures step { OnOk result (IsStep self.old self.new (put_change self.old (key_of object.metadata) (seen_object object))) }
        ensures unnamed { (result ≡ Err ServerRefusal.Unnamed) ↔ (is_named object.metadata ≡ false) }
        ensures found { ¬ (result ≡ Err ServerRefusal.NotFound) }
        ensures err { OnErr result (self.new ≡ self.old) }
        ensures history { IsHistory meta_of self.new.changes }
        ensures later { IsLater self.old.changes self.new.changes self.old.compacted self.new.compacted }
    {
        let entry = self.put_of(alloc, object)?;
        Ok(self.make(alloc, entry)?)
    }

    /// Removes the object of a reference, and answers the new revision. The object goes with that version.
    ///
    /// Errors: `NotFound` where there is none, and `NoMemory`.
    pub fn remove(
        &mut self,
        alloc: Global,
        key: &ObjectRef<DynamicObject>,
    ) -> Result<u64, ServerRefusal>
        ensures revision { IfOk result (λ r. r ≡ newest self.new) }
        ensures step { OnOk result (IsMade self.old self.new (remove_change self.old (dynamic_reference key.now))) }
        ensures missing { IsErrOf result ServerRefusal.NotFound → held self.old (dynamic_reference key.now) ≡ None }
        ensures named { ¬ (result ≡ Err ServerRefusal.Unnamed) }
        ensures err { OnErr result (self.new ≡ self.old) }
        ensures history { IsHistory meta_of self.new.changes }
        ensures later { IsLater self.old.changes self.new.changes self.old.compacted self.new.compacted }
    {
        let entry = self.removal_of(alloc, key)?;
        Ok(self.make(alloc, entry)?)
    }

    /// Asks the object of a reference to go, at a moment in nanoseconds, and answers the newest revision. Without
    /// finalizers it is removed. With finalizers it stays, and the moment in decimal becomes its deletion timestamp; where
    /// it has one already nothing changes.
    ///
    /// Errors: `NotFound` where there is none, and `NoMemory`.
    pub fn request_delete(
        &mut self,
        alloc: Global,
        key: &ObjectRef<DynamicObject>,
        now: Moment,
    ) -> Result<u64, ServerRefusal>
        ensures revision { IfOk result (λ r. r ≡ newest self.new) }
        ensures step { OnOk result (IsHeldAnd (held self.old (dynamic_reference key.now))
            (λ o. IsAtMostStep self.old self.new (deletion (next_revision self.old) now.0 o))) }
        ensures missing { IsErrOf result ServerRefusal.NotFound → held self.old (dynamic_reference key.now) ≡ None }
        ensures named { ¬ (result ≡ Err ServerRefusal.Unnamed) }
        ensures err { OnErr result (self.new ≡ self.old) }
        ensures history { IsHistory meta_of self.new.changes }
        ensures later { IsLater self.old.changes self.new.changes self.old.compacted self.new.compacted }
    {
        match self.deletion_of(alloc, key, now)? {
            Some(entry) => Ok(self.make(alloc, entry)?),
            None => Ok(self.revision()),
        }
    }

    /// Patches the object of a reference, by its JSON document, and answers the new revision, whose decimal text becomes
    /// its version. An object that is being deleted is removed where no finalizer is left.
    ///
    /// Errors: `NotFound` where there is none, those of `apply_patch`, and `NoMemory`.
    pub fn patch(
        &mut self,
        alloc: Global,
        key: &ObjectRef<DynamicObject>,
        patch: &[Patch],
    ) -> Result<u64, PatchRefusal>
        requires { length patch.now < 2 ^ 32 }
        ensures revision { IfOk result (λ r. r ≡ newest self.new) }
        ensures step { OnOk result (IsHeldAnd (held self.old (dynamic_reference key.now))
            (λ o. IsPatched self.old self.new (patch_change (next_revision self.old) (map operation_of patch.now) o))) }
        ensures refused { IfErr result (λ e. IsPatchRefusal (held self.old (dynamic_reference key.now))
            (patch_change (next_revision self.old) (map operation_of patch.now)) e) }
        ensures err { OnErr result (self.new ≡ self.old) }
        ensures history { IsHistory meta_of self.new.changes }
        ensures later { IsLater self.old.changes self.new.changes self.old.compacted self.new.compacted }
    {
        let entry = self.patch_of(alloc, key, patch)?;
        Ok(self.make(alloc, entry)?)
    }

    /// Lets the changes up to a revision count as gone, at most up to the newest.
    pub fn compact(&mut self, revision: u64)
        ensures after { self.new ≡ compacted_to revision self.old }
        ensures history { IsHistory meta_of self.new.changes }
        ensures later { IsLater self.old.changes self.new.changes self.old.compacted self.new.compacted }
    {
        self.compacted = self.compacted.max(revision.min(self.revision()));
    }

    /// The object of a reference, as the newest revision has it; none where there is none.
    ///
    /// Errors: `NoMemory`.
    pub fn get(
        &self,
        alloc: Global,
        key: &ObjectRef<DynamicObject>,
    ) -> Result<Option<&Arc<DynamicObject>>, NoMemory>
        ensures object { IfOk result (λ o. option_map arc_value (option_copied o) ≡ held_object self.now (dynamic_reference key.now)) }
        ensures held { IfOk result (λ o. option_map (λ a. seen_object (arc_value a)) (option_copied o) ≡ held self.now (dynamic_reference key.now)) }
    {
        let place = place_named(alloc, key)?;
        Ok(self.stored(key, &place))
    }

    /// The objects that the newest revision has, in the order of references (by namespace, none first, then by name);
    /// they are shared.
    ///
    /// Errors: `NoMemory`.
    pub fn objects(&self, alloc: Global) -> Result<Vec<Arc<DynamicObject>>, NoMemory>
        ensures { IfOk result (λ v. map arc_value v.items ≡ objects_of (state_of meta_of self.now.changes)) }
    {
        self.objects.all(alloc)
    }

    // The entries from the first on.
    pub(crate) fn entries(&self) -> &[Entry]
        ensures { map change_of result.now ≡ self.now.changes }
    {
        self.log.as_slice()
    }

    // Up to which revision the log counts as gone.
    pub(crate) fn compacted(&self) -> u64
        ensures { result ≡ self.now.compacted }
    {
        self.compacted
    }

    /// The type of its objects.
    pub fn resource(&self) -> &Arc<ApiResource>
        ensures kind { resource_type (arc_value result.now) ≡ self.now.kind }
        ensures history { IsHistory meta_of self.now.changes }
    {
        &self.resource
    }

    /// The newest revision, 0 before the first change.
    pub fn revision(&self) -> u64
        ensures value { result ≡ newest self.now }
        ensures small { result < 2 ^ 63 }
        ensures history { IsHistory meta_of self.now.changes }
    {
        self.log.len() as u64
    }

    // The revision of the next change of a history.
    fn next_revision(&self) -> u64
        ensures value { result ≡ next_revision self.now }
        ensures history { IsHistory meta_of self.now.changes }
    {
        self.revision() + 1
    }

    // The object of a reference, whose place this is.
    pub(crate) fn stored(
        &self,
        key: &ObjectRef<DynamicObject>,
        place: &Place,
    ) -> Option<&Arc<DynamicObject>>
        requires { key_at place.now ≡ reference_key (dynamic_reference key.now) }
        ensures held { option_map (λ a. seen_object (arc_value a)) (option_copied result) ≡ held self.now (dynamic_reference key.now) }
        ensures object { option_map arc_value (option_copied result) ≡ held_object self.now (dynamic_reference key.now) }
    {
        if !is_same_type(&key.dyntype, &self.resource) {
            return None;
        }
        self.objects.get(place)
    }

    // The object of a reference, which is shared.
    pub(crate) fn object(
        &self,
        alloc: Global,
        key: &ObjectRef<DynamicObject>,
    ) -> Result<Option<Arc<DynamicObject>>, NoMemory>
        ensures { IfOk result (λ o. option_map (λ a. seen_object (arc_value a)) o ≡ held self.now (dynamic_reference key.now)) }
    {
        let place = place_named(alloc, key)?;
        match self.stored(key, &place) {
            Some(stored) => Ok(Some(stored.clone()?)),
            None => Ok(None),
        }
    }

    // The entry of a put of an object.
    fn put_of(&self, alloc: Global, object: DynamicObject) -> Result<Entry, ServerRefusal>
        ensures ok { IfOk result (λ e. change_seen seen_object (change_of e) ≡ put_change self.now (key_of object.metadata) (seen_object object)) }
        ensures fits { IfOk result (λ e. IsNextChange meta_of self.now.changes (change_of e)) }
        ensures history { IsHistory meta_of self.now.changes }
        ensures unnamed { (result ≡ Err ServerRefusal.Unnamed) ↔ (is_named object.metadata ≡ false) }
        ensures found { ¬ (result ≡ Err ServerRefusal.NotFound) }
    {
        let revision = self.next_revision();
        if object.metadata.name.is_none() {
            return Err(ServerRefusal::Unnamed);
        }
        let place = place_of(alloc, &object.metadata)?;
        Ok(put_entry(alloc, object, self.objects.get(&place), revision)?)
    }

    // The entry with which the object of a reference goes.
    fn removal_of(
        &self,
        alloc: Global,
        key: &ObjectRef<DynamicObject>,
    ) -> Result<Entry, ServerRefusal>
        ensures ok { IfOk result (λ e. IsHeldAnd (held self.now (dynamic_reference key.now)) (λ o. change_seen seen_object (change_of e) ≡ removal (next_revision self.now) o)) }
        ensures fits { IfOk result (λ e. IsNextChange meta_of self.now.changes (change_of e)) }
        ensures history { IsHistory meta_of self.now.changes }
        ensures missing { IsErrOf result ServerRefusal.NotFound → held self.now (dynamic_reference key.now) ≡ None }
        ensures named { ¬ (result ≡ Err ServerRefusal.Unnamed) }
    {
        let revision = self.next_revision();
        let place = place_named(alloc, key)?;
        match self.stored(key, &place) {
            Some(stored) => Ok(removed(alloc, stored, revision)?),
            None => Err(ServerRefusal::NotFound),
        }
    }

    // The entry of a request to delete the object of a reference; none where nothing changes.
    pub(crate) fn deletion_of(
        &self,
        alloc: Global,
        key: &ObjectRef<DynamicObject>,
        now: Moment,
    ) -> Result<Option<Entry>, ServerRefusal>
        ensures ok { IfOk result (λ e. IsHeldAnd (held self.now (dynamic_reference key.now))
            (λ o. option_map (λ x. change_seen seen_object (change_of x)) e ≡ deletion (next_revision self.now) now.0 o)) }
        ensures fits { IfOk result (λ e. IfSome e (λ x. IsNextChange meta_of self.now.changes (change_of x))) }
        ensures history { IsHistory meta_of self.now.changes }
        ensures missing { IsErrOf result ServerRefusal.NotFound → held self.now (dynamic_reference key.now) ≡ None }
        ensures named { ¬ (result ≡ Err ServerRefusal.Unnamed) }
    {
        let revision = self.next_revision();
        let place = place_named(alloc, key)?;
        match self.stored(key, &place) {
            Some(stored) => Ok(deleted(alloc, stored, revision, now)?),
            None => Err(ServerRefusal::NotFound),
        }
    }

    // The entry of a patch of the object of a reference.
    pub(crate) fn patch_of(
        &self,
        alloc: Global,
        key: &ObjectRef<DynamicObject>,
        patch: &[Patch],
    ) -> Result<Entry, PatchRefusal>
        requires { length patch.now < 2 ^ 32 }
        ensures ok { IfOk result (λ e. IsHeldAnd (held self.now (dynamic_reference key.now))
            (λ o. patch_change (next_revision self.now) (map operation_of patch.now) o ≡ Ok (change_seen seen_object (change_of e)))) }
        ensures fits { IfOk result (λ e. IsNextChange meta_of self.now.changes (change_of e)) }
        ensures history { IsHistory meta_of self.now.changes }
        ensures refused { IfErr result (λ e. IsPatchRefusal (held self.now (dynamic_reference key.now))
            (patch_change (next_revision self.now) (map operation_of patch.now)) e) }
    {
        let revision = self.next_revision();
        let place = place_named(alloc, key)?;
        match self.stored(key, &place) {
            Some(stored) => patched(alloc, stored, patch, revision),
            None => Err(PatchRefusal::NotFound),
        }
    }

    // One change more.
    pub(crate) fn make(&mut self, alloc: Global, entry: Entry) -> Result<u64, NoMemory>
        requires { IsNextChange meta_of self.old.changes (change_of entry) }
        ensures revision { IfOk result (λ r. r ≡ newest self.new) }
        ensures ok { OnOk result (self.new ≡ record self.old { changes = self.old.changes ++ change_of entry ∷ [] }) }
        ensures err { OnErr result (self.new ≡ self.old) }
        ensures history { IsHistory meta_of self.new.changes }
    {
        self.log.reserve(1)?;
        self.objects.apply(alloc, &entry)?;
        self.log.push_reserved(entry);
        Ok(self.log.len() as u64)
    }
}
