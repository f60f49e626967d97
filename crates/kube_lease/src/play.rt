//! Elections that are played on a server.

ghost use Rattle.std.specs.Prelude.{◌≡◌, ◌==◌, ◌<◌, ◌^◌, ◌++◌, ◌∷◌, [], true, map, find, length, slice_get, Some, option_map, option_copied, IfOk, OnOk};
ghost use Rattle.std.specs.Arc.{arc_value};
ghost use Rattle.kube_meta.specs.Reading.{seen_object};
ghost use Rattle.kube_meta.specs.Reference.{Reference};
ghost use Rattle.kube_meta.specs.Resources.{dynamic_reference, resource_type};
ghost use Rattle.kube_api.specs.Patches.{operation_of};
ghost use Rattle.kube_api.specs.ObjectTalk.{patch_answer};
ghost use Rattle.kube_server.specs.Servers.{reference_key};
ghost use Rattle.kube_lease.specs.declared.election.Entrant.{Entrant as Entered};
ghost use Rattle.kube_lease.specs.declared.election.LeaseStep.TheVariants.{Tick, Observe, Send, Arrive, Reply};
ghost use Rattle.kube_lease.specs.Elections.{AreEntrants, Past, after, beginning, is_election, may_follow, past_of};
ghost use Rattle.kube_lease.specs.Leases.{Lease, unheld};
ghost use Rattle.kube_lease.specs.Played.{IsHeldBy, IsOpened, IsPlayedOn, IsSeenAs, IsStepAsked, candidates_after, lease_key};
ghost use Rattle.kube_lease.specs.Staging.{AreShort, HasOneMore, IsAnswered, IsDelivered, IsPosted, IsSmall, IsStage, Serves, entered, object_in, observed_at, patches_for, patches_in, stage_reference};

use crate::candidate::Candidate;
use crate::election::{Entrant, LeaseStep};
use crate::lease::new_lease;
use kube_api::copies::copy_patch;
use kube_api::{DeleteAnswer, ObjectApi, Patch, PatchAnswer};
use kube_meta::{ApiResource, DynamicObject, List, Moment, NoMemory, ObjectRef, Polled};
use kube_server::{Server, ServerObjects};
use std::alloc::Global;
use std::sync::Arc;

/// An election that was played.
#[derive(Drop)]
pub struct PlayedElection {
    /// The lease's object at its end.
    pub lease: DynamicObject,
    pub server: Server,
    /// The candidates at its end, each under its number.
    pub candidates: List<Candidate>,
}

/// An API of objects that is never ready, and keeps each patch: so a patch that was sent arrives when it is taken from
/// there.
#[derive(Drop)]
pub(crate) struct Outbox {
    pub sent: Vec<Vec<Patch>>,
}

impl ObjectApi for Outbox {
    type Value = DynamicObject;

    ghost moves = { λ old now raw new. IsPosted old raw new };

    fn patch(
        &mut self,
        alloc: Global,
        _name: &str,
        patch: &[Patch],
        _now: Moment,
    ) -> Result<Polled<PatchAnswer<DynamicObject>>, NoMemory> {
        let patch = copy_patch(alloc, patch)?;
        self.sent.push(patch)?;
        Ok(Polled::NotReady)
    }

    fn delete(
        &mut self,
        _alloc: Global,
        _name: &str,
        _now: Moment,
    ) -> Result<Polled<DeleteAnswer<DynamicObject>>, NoMemory> {
        Ok(Polled::NotReady)
    }
}

/// An object that a patch made, by the number of its send.
#[derive(Drop)]
pub(crate) struct Made {
    pub send: u32,
    pub object: Arc<DynamicObject>,
}

/// A server with a lease, and what an election has come to so far.
#[derive(Drop)]
pub(crate) struct Stage {
    pub server: Server,
    pub key: ObjectRef<DynamicObject>,
    pub now: Moment,
    /// The object before each change so far, and now.
    pub seen: Vec<Arc<DynamicObject>>,
    pub candidates: Vec<Candidate>,
    pub outbox: Outbox,
    pub made: Vec<Made>,
}

fn resource(alloc: Global) -> Result<Arc<ApiResource>, NoMemory> {
    let resource = ApiResource::new(alloc, "", "v1", "ConfigMap", "configmaps")?;
    Ok(Arc::new(alloc, resource)?)
}

/// A server that has a lease which nobody has held.
fn opened(alloc: Global, resource: Arc<ApiResource>) -> Result<Server, NoMemory>
    ensures serves { IfOk result (λ s. (r : Reference) → r.kind ≡ resource_type resource.value → reference_key r ≡ lease_key → Serves s r unheld) }
    ensures opened { IfOk result (λ s. IsOpened (resource_type resource.value) s) }
{
    let object = new_lease(alloc, "lease")?;
    let mut server = Server::new(alloc, resource);
    // (the object has a name, so it is refused only where memory is out)
    match server.put(alloc, object) {
        Ok(_revision) => Ok(server),
        Err(_refusal) => Err(NoMemory),
    }
}

/// The object of the lease, which is there.
fn held(
    alloc: Global,
    server: &Server,
    key: &ObjectRef<DynamicObject>,
) -> Result<Arc<DynamicObject>, NoMemory>
    ensures { IfOk result (λ o. (l : Lease) → Serves server.now (dynamic_reference key.now) l → IsSeenAs (seen_object (arc_value o)) l) }
{
    match server.get(alloc, key)? {
        Some(object) => Ok(object.clone()?),
        None => Err(NoMemory),
    }
}

/// The object that a patch made, if it was done.
fn object_of(answer: Polled<PatchAnswer<DynamicObject>>) -> Option<Arc<DynamicObject>>
    ensures { option_map arc_value result ≡ object_in (patch_answer answer) }
{
    match answer {
        Polled::Ready(PatchAnswer::Done(object)) => Some(object),
        _ => None,
    }
}

/// The server whose objects they were.
fn given_back<'a>(objects: ServerObjects<'a>) -> &'a mut Server
    ensures same_reference { result.ghost_name ≡ objects.entry.server.ghost_name }
    ensures server { result.now ≡ objects.entry.server.now }
{
    objects.server
}

/// A patch arrives. The object that it makes, if its tests pass.
fn arrive(
    alloc: Global,
    server: &mut Server,
    patch: &[Patch],
    now: Moment,
) -> Result<Option<Arc<DynamicObject>>, NoMemory>
    requires { length patch.now < 2 ^ 32 }
    ensures { IfOk result (λ o. IsAnswered server.old server.new now.0 (map operation_of patch.now) o) }
{
    let mut objects = server.objects_in(alloc, None)?;
    let answer = objects.patch(alloc, "lease", patch, now)?;
    // (so it is known what the server is in the end)
    let _server = given_back(objects);
    Ok(object_of(answer))
}

/// The candidates of an election, before its first step.
fn enter(alloc: Global, candidates: &[Entrant]) -> Result<Vec<Candidate>, NoMemory>
    requires { AreEntrants candidates.now }
    ensures { IfOk result (λ v. v.items ≡ map entered candidates.now) }
{
    let mut all = Vec::new(alloc);
    for entrant in candidates {
        let id = entrant.id.as_str();
        let candidate = Candidate::new(alloc, id, "lease", entrant.duration)?;
        all.push(candidate)?;
    }
    Ok(all)
}

/// A candidate observes an object, which is a lease.
fn observe_at(
    alloc: Global,
    candidates: &mut Vec<Candidate>,
    number: u32,
    object: &DynamicObject,
) -> Result<(), NoMemory>
    ensures { OnOk result ((l : Lease) → IsSeenAs (seen_object object.now) l → candidates.new.items ≡ observed_at number l candidates.old.items) }
{
    let place = number as usize;
    if candidates.len() <= place {
        return Ok(());
    }
    let candidate = &mut candidates[place];
    // (it is a lease, so it is refused only where memory is out)
    match candidate.observe(alloc, object) {
        Ok(()) => Ok(()),
        Err(_fault) => Err(NoMemory),
    }
}

/// A candidate is polled, and what it sends is kept.
fn post_at(
    alloc: Global,
    candidates: &mut Vec<Candidate>,
    number: u32,
    outbox: &mut Outbox,
    now: Moment,
) -> Result<(), NoMemory>
    ensures same { OnOk result (candidates.new.items ≡ candidates.old.items) }
    ensures posted { OnOk result (patches_in outbox.new ≡ patches_in outbox.old ++ patches_for now.0 (slice_get candidates.old.items number)) }
{
    let place = number as usize;
    if candidates.len() <= place {
        return Ok(());
    }
    let candidate = &mut candidates[place];
    candidate.poll(alloc, outbox, now)?;
    Ok(())
}

fn state_at(seen: &[Arc<DynamicObject>], state: u32) -> Option<&Arc<DynamicObject>>
    ensures { option_copied result ≡ slice_get seen.now state }
{
    seen.get(state as usize)
}

fn patch_at(sent: &[Vec<Patch>], number: u32) -> Option<&Vec<Patch>>
    ensures { option_copied result ≡ slice_get sent.now number }
{
    sent.get(number as usize)
}

/// What the patch of a send made.
fn made_by(made: &[Made], send: u32) -> Option<&Made>
    ensures { option_copied result ≡ find (λ m. m.send == send) made.now }
{
    made.iter().find(|made| made.send == send)
}

impl Stage {
    fn new(alloc: Global, candidates: &[Entrant]) -> Result<Stage, NoMemory>
        requires { AreEntrants candidates.now }
        ensures stage { IfOk result (λ s. IsStage candidates.now s beginning) }
        ensures played { IfOk result (λ s. IsPlayedOn candidates.now [] s.server) }
    {
        let resource = resource(alloc)?;
        let key = ObjectRef::new_with(alloc, "lease", resource.clone()?)?;
        let server = opened(alloc, resource)?;
        let object = held(alloc, &server, &key)?;
        let seen = vec![in alloc; object]?;
        let candidates = enter(alloc, candidates)?;
        Ok(Stage {
            server,
            key,
            now: Moment(0),
            seen,
            candidates,
            outbox: Outbox {
                sent: Vec::new(alloc),
            },
            made: Vec::new(alloc),
        })
    }

    // The moment rises.
    fn tick(&mut self, by: u64)
        ensures stage { (es : List Entered) (p : Past) → IsStage es self.old p → may_follow es p (Tick by) ≡ true → IsStage es self.new (after es p (Tick by)) }
        ensures server { self.new.server ≡ self.old.server }
    {
        self.now = self.now.plus(by);
    }

    // A candidate observes an object of the lease.
    fn observe(
        &mut self,
        alloc: Global,
        candidate: u32,
        object: Arc<DynamicObject>,
    ) -> Result<(), NoMemory>
        ensures stage { OnOk result ((es : List Entered) (p : Past) (l : Lease) → IsStage es self.old p → IsSeenAs (seen_object (arc_value object)) l → IsSmall l
            → IsStage es self.new (record p { observed = (candidate, l) ∷ p.observed })) }
        ensures server { OnOk result (self.new.server ≡ self.old.server) }
    {
        let object: &DynamicObject = &object;
        observe_at(alloc, &mut self.candidates, candidate, object)?;
        Ok(())
    }

    // A candidate observes a state so far.
    fn observe_state(&mut self, alloc: Global, candidate: u32, state: u32) -> Result<(), NoMemory>
        ensures stage { OnOk result ((es : List Entered) (p : Past) → IsStage es self.old p → may_follow es p (Observe candidate state) ≡ true
            → IsStage es self.new (after es p (Observe candidate state))) }
        ensures server { OnOk result (self.new.server ≡ self.old.server) }
    {
        let object = match state_at(self.seen.as_slice(), state) {
            Some(object) => object.clone()?,
            None => return Ok(()),
        };
        self.observe(alloc, candidate, object)?;
        Ok(())
    }

    // A candidate sends what it decides, which arrives later, often or never.
    fn send(&mut self, alloc: Global, candidate: u32) -> Result<(), NoMemory>
        ensures stage { OnOk result ((es : List Entered) (p : Past) → IsStage es self.old p → IsStage es self.new (after es p (Send candidate))) }
        ensures server { OnOk result (self.new.server ≡ self.old.server) }
    {
        let now = self.now;
        post_at(
            alloc,
            &mut self.candidates,
            candidate,
            &mut self.outbox,
            now,
        )?;
        Ok(())
    }

    // Sees how the lease stands.
    fn see(&mut self, alloc: Global) -> Result<(), NoMemory>
        ensures rest { OnOk result (self.new ≡ record self.old { seen = self.new.seen }) }
        ensures seen { OnOk result ((l : Lease) → Serves self.old.server (stage_reference self.old) l → HasOneMore self.old.seen.items self.new.seen.items l) }
    {
        let object = held(alloc, &self.server, &self.key)?;
        self.seen.push(object)?;
        Ok(())
    }

    // Keeps the object that a patch made, and sees how the lease stands.
    fn note(&mut self, alloc: Global, send: u32, object: Arc<DynamicObject>) -> Result<(), NoMemory>
        ensures rest { OnOk result (self.new ≡ record self.old { made = self.new.made; seen = self.new.seen }) }
        ensures made { OnOk result (self.new.made.items ≡ self.old.made.items ++ (record { send = send; object = object }) ∷ []) }
        ensures seen { OnOk result ((l : Lease) → Serves self.old.server (stage_reference self.old) l → HasOneMore self.old.seen.items self.new.seen.items l) }
    {
        self.made.push(Made { send, object })?;
        self.see(alloc)?;
        Ok(())
    }

    // A patch that was sent comes to the server. The object that it makes, if its tests pass.
    fn deliver(&mut self, alloc: Global, send: u32) -> Result<Option<Arc<DynamicObject>>, NoMemory>
        requires { AreShort (patches_in self.old.outbox) }
        ensures rest { OnOk result (self.new ≡ record self.old { server = self.new.server }) }
        ensures made { IfOk result (λ o. (es : List Entered) (p : Past) → IsStage es self.old p → may_follow es p (Arrive send) ≡ true
            → IsDelivered p send self.old.server self.new.server (stage_reference self.old) o) }
    {
        let made = match patch_at(self.outbox.sent.as_slice(), send) {
            Some(patch) => arrive(alloc, &mut self.server, patch.as_slice(), self.now)?,
            None => return Ok(None),
        };
        Ok(made)
    }

    // A patch that was sent arrives.
    fn arrive(&mut self, alloc: Global, send: u32) -> Result<(), NoMemory>
        requires { AreShort (patches_in self.old.outbox) }
        ensures stage { OnOk result ((es : List Entered) (p : Past) → IsStage es self.old p → may_follow es p (Arrive send) ≡ true → IsStage es self.new (after es p (Arrive send))) }
        ensures asked { OnOk result ((es : List Entered) (p : Past) → IsStage es self.old p → may_follow es p (Arrive send) ≡ true → IsStepAsked p (Arrive send) self.old.server self.new.server) }
    {
        let made = self.deliver(alloc, send)?;
        match made {
            Some(object) => {
                self.note(alloc, send, object)?;
                Ok(())
            }
            None => Ok(()),
        }
    }

    // Who sent a patch observes what it made.
    fn reply(&mut self, alloc: Global, candidate: u32, send: u32) -> Result<(), NoMemory>
        ensures stage { OnOk result ((es : List Entered) (p : Past) → IsStage es self.old p → may_follow es p (Reply candidate send) ≡ true
            → IsStage es self.new (after es p (Reply candidate send))) }
        ensures server { OnOk result (self.new.server ≡ self.old.server) }
    {
        let object = match made_by(self.made.as_slice(), send) {
            Some(made) => made.object.clone()?,
            None => return Ok(()),
        };
        self.observe(alloc, candidate, object)?;
        Ok(())
    }

    // Takes a step.
    fn take(&mut self, alloc: Global, step: &LeaseStep) -> Result<(), NoMemory>
        requires { AreShort (patches_in self.old.outbox) }
        ensures stage { OnOk result ((es : List Entered) (p : Past) → IsStage es self.old p → may_follow es p step.now ≡ true → IsStage es self.new (after es p step.now)) }
        ensures asked { OnOk result ((es : List Entered) (p : Past) → IsStage es self.old p → may_follow es p step.now ≡ true → IsStepAsked p step.now self.old.server self.new.server) }
    {
        match step {
            LeaseStep::Tick { by } => {
                self.tick(*by);
                Ok(())
            }
            LeaseStep::Observe { candidate, state } => {
                self.observe_state(alloc, *candidate, *state)
            }
            LeaseStep::Send { candidate } => self.send(alloc, *candidate),
            LeaseStep::Arrive { send } => self.arrive(alloc, *send),
            LeaseStep::Reply { candidate, send } => self.reply(alloc, *candidate, *send),
        }
    }

    // How the lease stands.
    fn lease(&self, alloc: Global) -> Result<DynamicObject, NoMemory>
        ensures { IfOk result (λ o. (l : Lease) → Serves self.entry.now.server (stage_reference self.entry.now) l → IsSeenAs (seen_object o) l) }
    {
        let object = held(alloc, &self.server, &self.key)?;
        let object: &DynamicObject = &object;
        let lease = object.copy(alloc)?;
        Ok(lease)
    }
}

/// Plays an election on a server.
///
/// Errors: `NoMemory`.
pub(crate) fn played(
    alloc: Global,
    candidates: &[Entrant],
    election: &[LeaseStep],
) -> Result<PlayedElection, NoMemory>
    requires entrants { AreEntrants candidates.now }
    requires valid { is_election candidates.now election.now ≡ true }
    ensures lease { IfOk result (λ p. IsSeenAs (seen_object p.lease) (past_of candidates.now election.now).current) }
    ensures held { IfOk result (λ p. IsHeldBy p.server (past_of candidates.now election.now).current) }
    ensures asked { IfOk result (λ p. IsPlayedOn candidates.now election.now p.server) }
    ensures candidates { IfOk result (λ p. p.candidates ≡ candidates_after candidates.now (past_of candidates.now election.now)) }
{
    let mut stage = Stage::new(alloc, candidates)?;
    for step in election {
        stage.take(alloc, step)?;
    }
    let lease = stage.lease(alloc)?;
    let server = stage.server;
    let all = List::from(stage.candidates);
    Ok(PlayedElection {
        lease,
        server,
        candidates: all,
    })
}
