//! Lives that are played on a server.

ghost use Rattle.std.specs.Prelude.{◌≡◌, ◌<◌, ◌^◌, ◌++◌, ◌∷◌, [], true, false, map, length, List, ℕ, Some, option_map, option_copied, slice_get, IfOk, OnOk};
ghost use Rattle.std.specs.Arc.{arc_value};
ghost use Rattle.kube_meta.specs.Reading.{seen_object};
ghost use Rattle.kube_meta.specs.Reference.{Reference};
ghost use Rattle.kube_meta.specs.Resources.{dynamic_reference, resource_type};
ghost use Rattle.kube_api.specs.Patches.{operation_of};
ghost use Rattle.kube_server.specs.Servers.{reference_key};
ghost use Rattle.kube_final.specs.declared.life.LifeState.{LifeState as State};
ghost use Rattle.kube_final.specs.Finalizers.{decision_on};
ghost use Rattle.kube_final.specs.Lives.{Decided, Past, after, arrived, beginning, decision_at, decisions_after, first_state, is_life, past_of, sent_by, is_made, is_there, may_follow, state_after, state_at, state_of as state_with, with_decision};
ghost use Rattle.kube_final.specs.Playing.{AreMade, AreSent, AreShort, IsAnswered, IsKept, IsDue, IsMadeAs, IsPatchOf, IsSight, IsStage, Serves, is_due, new_object, object_key, stage_reference, there};
ghost use Rattle.kube_final.specs.Finalizers.{patch_on, replacement as replacement_of};
ghost use Rattle.kube_final.specs.Played.{IsDeletionAsked, IsOpened, IsPlayedOn, IsStepAsked};

use crate::finalizer::{Decision, Finalizer, finalizers};
use crate::life::{LifeState, LifeStep};
use crate::patches::{patch_for, replacement};
use kube_api::{Patch, PatchRefusal};
use kube_meta::text::copy_texts;
use kube_meta::{ApiResource, DynamicObject, List, Moment, NoMemory, ObjectMeta, ObjectRef, Text};
use kube_server::Server;
use std::alloc::Global;
use std::sync::Arc;

/// A life that was played.
#[derive(Drop)]
pub struct PlayedLife {
    /// How the object stands at its end.
    pub state: LifeState,
    pub server: Server,
}

/// A decision on an object as it was seen.
#[derive(Drop)]
pub(crate) struct Made {
    pub decision: Decision,
    pub object: Arc<DynamicObject>,
}

/// A server with one object, and what a life has come to so far.
#[derive(Drop)]
pub(crate) struct Stage {
    pub server: Server,
    pub key: ObjectRef<DynamicObject>,
    pub name: Text,
    /// The object after each step so far, none where it has gone.
    pub seen: Vec<Option<Arc<DynamicObject>>>,
    pub decisions: Vec<Made>,
    pub sent: Vec<Vec<Patch>>,
}

fn resource(alloc: Global) -> Result<Arc<ApiResource>, NoMemory> {
    let group = Text::new(alloc, "")?;
    let version = Text::new(alloc, "v1")?;
    let api_version = Text::new(alloc, "v1")?;
    let kind = Text::new(alloc, "ConfigMap")?;
    let plural = Text::new(alloc, "configmaps")?;
    Ok(Arc::new(
        alloc,
        ApiResource {
            group,
            version,
            api_version,
            kind,
            plural,
        },
    )?)
}

/// The object of a life, before its first step.
fn first_object(alloc: Global) -> Result<DynamicObject, NoMemory>
    ensures { IfOk result (λ o. seen_object o ≡ new_object) }
{
    let mut metadata = ObjectMeta::empty();
    metadata.name = Some(Text::new(alloc, "object")?);
    Ok(DynamicObject::bare(metadata))
}

/// A server that has the object of a life.
fn opened(alloc: Global, resource: Arc<ApiResource>) -> Result<Server, NoMemory>
    ensures serves { IfOk result (λ s. (r : Reference) → r.kind ≡ resource_type resource.value → reference_key r ≡ object_key → Serves s r first_state) }
    ensures opened { IfOk result (λ s. IsOpened (resource_type resource.value) s) }
{
    let object = first_object(alloc)?;
    let mut server = Server::new(alloc, resource);
    // (the object has a name, so it is refused only where memory is out)
    match server.put(alloc, object) {
        Ok(_revision) => Ok(server),
        Err(_refusal) => Err(NoMemory),
    }
}

/// The object that a server has.
fn held(
    alloc: Global,
    server: &Server,
    key: &ObjectRef<DynamicObject>,
) -> Result<Option<Arc<DynamicObject>>, NoMemory>
    ensures { IfOk result (λ o. (state : State) → Serves server.now (dynamic_reference key.now) state → IsSight o state) }
{
    match server.get(alloc, key)? {
        Some(object) => Ok(Some(object.clone()?)),
        None => Ok(None),
    }
}

/// Sends a patch. One that is refused changes nothing.
fn send(
    alloc: Global,
    server: &mut Server,
    key: &ObjectRef<DynamicObject>,
    patch: &[Patch],
) -> Result<(), NoMemory>
    requires { length patch.now < 2 ^ 32 }
    ensures { OnOk result (IsAnswered server.old server.new (dynamic_reference key.now) (map operation_of patch.now)) }
{
    match server.patch(alloc, key, patch) {
        Ok(_revision) => Ok(()),
        Err(PatchRefusal::NoMemory) => Err(NoMemory),
        Err(_refusal) => Ok(()),
    }
}

/// Another party's change of the finalizers, which is a patch too.
fn change(
    alloc: Global,
    server: &mut Server,
    key: &ObjectRef<DynamicObject>,
    names: &[Text],
) -> Result<(), NoMemory>
    ensures serves { OnOk result ((state : State) → state.gone ≡ false → Serves server.old (dynamic_reference key.now) state
        → Serves server.new (dynamic_reference key.now) (state_with names.now state.deleting)) }
    ensures asked { OnOk result (IsAnswered server.old server.new (dynamic_reference key.now) (replacement_of names.now)) }
{
    let patch = replacement(alloc, names)?;
    send(alloc, server, key, patch.as_slice())
}

/// A request to delete the object, which is there.
fn request(
    alloc: Global,
    server: &mut Server,
    key: &ObjectRef<DynamicObject>,
) -> Result<(), NoMemory>
    ensures serves { OnOk result ((state : State) → state.gone ≡ false → Serves server.old (dynamic_reference key.now) state
        → Serves server.new (dynamic_reference key.now) (state_with state.finalizers true)) }
    ensures asked { OnOk result (IsDeletionAsked (dynamic_reference key.now) server.old server.new) }
{
    // (it is there, so it is refused only where memory is out)
    match server.request_delete(alloc, key, Moment(0)) {
        Ok(_revision) => Ok(()),
        Err(_refusal) => Err(NoMemory),
    }
}

/// A patch of a decision arrives.
fn arrive(
    alloc: Global,
    server: &mut Server,
    key: &ObjectRef<DynamicObject>,
    patch: &[Patch],
) -> Result<(), NoMemory>
    requires { length patch.now < 2 ^ 32 }
    ensures serves { OnOk result ((name : List ℕ) (state : State) (d : Decided) → IsPatchOf name (map operation_of patch.now) (Some d) → Serves server.old (dynamic_reference key.now) state
        → Serves server.new (dynamic_reference key.now) (arrived name state (Some d))) }
    ensures asked { OnOk result ((name : List ℕ) (d : Decided) → IsPatchOf name (map operation_of patch.now) (Some d)
        → IsAnswered server.old server.new (dynamic_reference key.now) (patch_on name d.seen d.decision)) }
{
    send(alloc, server, key, patch)
}

/// The object of a sight.
fn sight_at(seen: &[Option<Arc<DynamicObject>>], sight: u32) -> Option<&Arc<DynamicObject>>
    ensures { option_map arc_value (option_copied result) ≡ there (slice_get seen.now sight) }
{
    match seen.get(sight as usize) {
        Some(Some(object)) => Some(object),
        _ => None,
    }
}

fn made_at(decisions: &[Made], decision: u32) -> Option<&Made>
    ensures { option_copied result ≡ slice_get decisions.now decision }
{
    decisions.get(decision as usize)
}

fn patch_at(sent: &[Vec<Patch>], number: u32) -> Option<&Vec<Patch>>
    ensures { option_copied result ≡ slice_get sent.now number }
{
    sent.get(number as usize)
}

/// Decides on an object as it was seen.
fn decide(alloc: Global, name: &Text, object: &Arc<DynamicObject>) -> Result<Made, NoMemory>
    ensures decision { IfOk result (λ m. m.decision ≡ decision_on name.now (arc_value object.now).metadata) }
    ensures object { IfOk result (λ m. arc_value m.object ≡ arc_value object.now) }
{
    let finalizer = Finalizer::new(alloc, name.as_str(), object.clone()?)?;
    let decision = finalizer.decide();
    let object = object.clone()?;
    Ok(Made { decision, object })
}

/// The patch of a decision.
fn patch_of(alloc: Global, name: &Text, made: &Made) -> Result<Vec<Patch>, NoMemory>
    ensures { IfOk result (λ p. (d : Decided) → IsMadeAs name.now made.now d → IsDue d.decision → IsPatchOf name.now (map operation_of p.items) (Some d)) }
{
    let object: &DynamicObject = &made.object;
    patch_for(alloc, made.decision, name, finalizers(&object.metadata))
}

impl Stage {
    fn new(alloc: Global, name: &str) -> Result<Stage, NoMemory>
        ensures named { IfOk result (λ s. s.name ≡ name.now) }
        ensures stage { IfOk result (λ s. IsStage name.now s beginning) }
        ensures played { IfOk result (λ s. IsPlayedOn name.now [] (stage_reference s) s.server) }
    {
        let resource = resource(alloc)?;
        let key = ObjectRef::new_with(alloc, "object", resource.clone()?)?;
        let server = opened(alloc, resource)?;
        let object = held(alloc, &server, &key)?;
        let seen = vec![in alloc; object]?;
        let name = Text::new(alloc, name)?;
        Ok(Stage {
            server,
            key,
            name,
            seen,
            decisions: Vec::new(alloc),
            sent: Vec::new(alloc),
        })
    }

    // Decides on an earlier state.
    fn decide(&mut self, alloc: Global, sight: u32) -> Result<(), NoMemory>
        ensures rest { OnOk result (self.new ≡ record self.old { decisions = self.new.decisions }) }
        ensures made { OnOk result ((p : Past) → IsKept self.old.name self.old p → is_there (state_at p sight) ≡ true
            → AreMade self.old.name self.new.decisions.items (with_decision self.old.name (state_at p sight) p.decisions)) }
    {
        let made = match sight_at(self.seen.as_slice(), sight) {
            Some(object) => decide(alloc, &self.name, object)?,
            None => return Ok(()),
        };
        self.decisions.push(made)?;
        Ok(())
    }

    // Sends the patch of a decision, which arrives later, often or never.
    fn send(&mut self, alloc: Global, decision: u32) -> Result<(), NoMemory>
        ensures rest { OnOk result (self.new ≡ record self.old { sent = self.new.sent }) }
        ensures sent { OnOk result ((p : Past) → IsKept self.old.name self.old p → is_made is_due (decision_at p decision) ≡ true
            → AreSent self.old.name p.decisions self.new.sent.items (p.sent ++ decision ∷ [])) }
    {
        let patch = match made_at(self.decisions.as_slice(), decision) {
            Some(made) => patch_of(alloc, &self.name, made)?,
            None => return Ok(()),
        };
        self.sent.push(patch)?;
        Ok(())
    }

    // What a step makes of the server.
    fn act(&mut self, alloc: Global, step: &LifeStep) -> Result<(), NoMemory>
        requires { AreShort self.old.sent.items }
        ensures rest { self.new ≡ record self.old { server = self.new.server } }
        ensures server { OnOk result ((p : Past) → IsStage self.old.name self.old p → may_follow self.old.name p step.now ≡ true
            → Serves self.new.server (stage_reference self.old) (state_after self.old.name p step.now)) }
        ensures asked { OnOk result ((p : Past) → IsKept self.old.name self.old p → may_follow self.old.name p step.now ≡ true
            → IsStepAsked self.old.name p step.now (stage_reference self.old) self.old.server self.new.server) }
    {
        match step {
            LifeStep::Other { finalizers } => {
                change(alloc, &mut self.server, &self.key, finalizers.as_slice())
            }
            LifeStep::RequestDelete => request(alloc, &mut self.server, &self.key),
            LifeStep::Arrive { send } => match patch_at(self.sent.as_slice(), *send) {
                Some(patch) => arrive(alloc, &mut self.server, &self.key, patch.as_slice()),
                None => Ok(()),
            },
            _ => Ok(()),
        }
    }

    // Keeps what a step decides and sends.
    fn note(&mut self, alloc: Global, step: &LifeStep) -> Result<(), NoMemory>
        ensures rest { OnOk result (self.new ≡ record self.old { decisions = self.new.decisions; sent = self.new.sent }) }
        ensures made { OnOk result ((p : Past) → IsKept self.old.name self.old p → may_follow self.old.name p step.now ≡ true
            → AreMade self.old.name self.new.decisions.items (decisions_after self.old.name p step.now)) }
        ensures sent { OnOk result ((p : Past) → IsKept self.old.name self.old p → may_follow self.old.name p step.now ≡ true
            → AreSent self.old.name (decisions_after self.old.name p step.now) self.new.sent.items (p.sent ++ sent_by step.now)) }
    {
        match step {
            LifeStep::Decide { sight } => self.decide(alloc, *sight),
            LifeStep::Send { decision } => self.send(alloc, *decision),
            _ => Ok(()),
        }
    }

    // Takes a step.
    fn take(&mut self, alloc: Global, step: &LifeStep) -> Result<(), NoMemory>
        requires { AreShort self.old.sent.items }
        ensures named { OnOk result (self.new.name ≡ self.old.name) }
        ensures key { OnOk result (stage_reference self.new ≡ stage_reference self.old) }
        ensures stage { OnOk result ((p : Past) → IsStage self.old.name self.old p → may_follow self.old.name p step.now ≡ true
            → IsStage self.old.name self.new (after self.old.name p step.now)) }
        ensures asked { OnOk result ((p : Past) → IsKept self.old.name self.old p → may_follow self.old.name p step.now ≡ true
            → IsStepAsked self.old.name p step.now (stage_reference self.old) self.old.server self.new.server) }
    {
        self.act(alloc, step)?;
        self.note(alloc, step)?;
        let object = held(alloc, &self.server, &self.key)?;
        self.seen.push(object)?;
        Ok(())
    }

    // How the object stands.
    fn state(&self, alloc: Global) -> Result<LifeState, NoMemory>
        ensures { IfOk result (λ s. (state : State) → Serves self.now.server (stage_reference self.now) state → s ≡ state) }
    {
        match held(alloc, &self.server, &self.key)? {
            Some(object) => {
                let object: &DynamicObject = &object;
                Ok(LifeState {
                    finalizers: copy_texts(alloc, finalizers(&object.metadata))?,
                    deleting: object.metadata.deletion_timestamp.is_some(),
                    gone: false,
                })
            }
            None => Ok(LifeState {
                finalizers: List::new(alloc),
                deleting: true,
                gone: true,
            }),
        }
    }
}

/// Plays a life on a server.
///
/// Errors: `NoMemory`.
pub(crate) fn played(alloc: Global, life: &[LifeStep], name: &str) -> Result<PlayedLife, NoMemory>
    requires { is_life name.now life.now ≡ true }
    ensures state { IfOk result (λ p. p.state ≡ (past_of name.now life.now).current) }
    ensures server { IfOk result (λ p. (r : Reference) × IsPlayedOn name.now life.now r p.server) }
{
    let mut stage = Stage::new(alloc, name)?;
    for step in life {
        stage.take(alloc, step)?;
    }
    let state = stage.state(alloc)?;
    let server = stage.server;
    Ok(PlayedLife { state, server })
}
