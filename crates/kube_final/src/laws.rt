//! Laws over every life of an object: nothing that a controller guards by a finalizer goes before its cleanup.

ghost use Rattle.std.specs.Prelude.{◌≡◌, ◌≤◌, ◌<◌, ◌^◌, ◌++◌, ◌∷◌, [], ℕ, List, Option, length, take, true, IfOk, IfSome};
ghost use Rattle.std.specs.List.{list_any};
ghost use Rattle.kube_meta.specs.Reading.{ObjectData};
ghost use Rattle.kube_meta.specs.Reference.{Reference};
ghost use Rattle.kube_meta.specs.Writing.{IsContent, IsSmall};
ghost use Rattle.kube_final.specs.FinalizerPatches.{ChangesFinalizers, finalizers_changed, is_as_seen};
ghost use Rattle.kube_final.specs.Finalizers.{finalizers_in, patch_on};
ghost use Rattle.kube_final.specs.Played.{IsPlayedOn};
ghost use Rattle.kube_final.specs.Playing.{IsSendable};
ghost use Rattle.kube_final.specs.Lives.{ends_cleanup, is_life, others_in, past_of, patched_by, starts_apply};
ghost use Rattle.kube_final.specs.declared.finalizer.Decision.{Decision};
ghost use Rattle.kube_final.specs.declared.life.LifeStep.{LifeStep as Step};
ghost use Rattle.kube_final.specs.declared.life.LifeStep.TheVariants.{Arrive};
ghost use Rattle.kube_meta.specs.declared.dynamic.DynamicObject.{DynamicObject};
ghost use Rattle.kube_model.specs.History.{Exchange};
ghost use Rattle.kube_model.specs.Raw.{Raw};
ghost use Rattle.kube_model.specs.World.{Settings};
ghost use Rattle.kube_watch.specs.Polls.{AreCalls};
ghost use Rattle.kube_server.specs.Connections.{Connection, IsMove, IsSameLog};
ghost use Rattle.kube_server.specs.Servers.{meta_of, patch_change};

use crate::life::Past;
pub use crate::life::{LifeState, LifeStep};
pub use crate::play::PlayedLife;
use crate::play::played;
use kube_meta::NoMemory;
use std::alloc::Global;

/// Whether steps are the life of one object of one uid, under the finalizer of a name that no other party adds or removes.
///
/// Errors: `NoMemory`.
pub fn valid(alloc: Global, life: &[LifeStep], name: &str) -> Result<bool, NoMemory>
    requires { length life.now < 2 ^ 32 }
    ensures { IfOk result (λ v. v ≡ is_life name.now life.now) }
{
    let mut past = Past::beginning(alloc);
    for step in life {
        if !past.may_follow(name, step) {
            return Ok(false);
        }
        past.take(alloc, name, step)?;
    }
    Ok(true)
}

/// In a life, where an Apply is ever started, the object goes only after some Cleanup succeeded; and each patch that
/// arrives, as late and as often as it may, leaves the finalizers other than the name as they were.
pub fn guarded(life: &[LifeStep], name: &str)
    requires count { length life.now < 2 ^ 32 }
    requires valid { is_life name.now life.now ≡ true }
    ensures cleaned { (n : ℕ) → n ≤ length life.now → list_any starts_apply life.now ≡ true → (past_of name.now (take n life.now)).current.gone ≡ true
        → list_any ends_cleanup (take n life.now) ≡ true }
    ensures others { (front back : List Step) (send : ℕ) → life.now ≡ front ++ Arrive send ∷ back
        → others_in name.now (past_of name.now (front ++ Arrive send ∷ [])).current.finalizers ≡ others_in name.now (past_of name.now front).current.finalizers }
{}

/// Plays a life on a server in memory, and gives how the object stands at its end, which is as the definitions say, with
/// the server. Each decision is that of `Finalizer::decide`, each patch the one that `Finalizer::poll` sends for it. All that
/// was asked of the server is that the object was put, and then for each step that changes it one call: `Server::patch`
/// where another party changes it or a patch arrives, and `Server::request_delete`.
///
/// Errors: `NoMemory`.
pub fn play(alloc: Global, life: &[LifeStep], name: &str) -> Result<PlayedLife, NoMemory>
    requires valid { is_life name.now life.now ≡ true }
    ensures state { IfOk result (λ p. p.state ≡ (past_of name.now life.now).current) }
    ensures server { IfOk result (λ p. (r : Reference) × IsPlayedOn name.now life.now r p.server) }
{
    played(alloc, life, name)
}

/// Calls of a watch over a connection leave its log, and up to which revision that counts as gone, as they are: so it may be
/// fed between the polls of a wait, of which the exchanges are such calls.
pub fn calls_leave_the_log()
    ensures { (talk : Connection DynamicObject → Option (List (Raw DynamicObject))) (faults : Connection DynamicObject → ℕ) (version : DynamicObject → Option (List ℕ))
        (settings : Settings) (now : ℕ) (old new : Connection DynamicObject) (xs : List (Exchange DynamicObject))
        → AreCalls (record { moves = IsMove meta_of; talk = talk; faults = faults; version = version }) settings now old xs new
        → IsSameLog old new }
{}

/// The patch of a decision, sent to any object that can be written (whose other members are no types, no metadata and no
/// fractions): where its test passes it is the same object with its finalizers as the decision changes them, and else the
/// patch is refused. The document that it makes is read as that object, and a server so makes it, with its next revision.
pub fn patches_change_finalizers_alone()
    ensures document { (o : ObjectData) → IsContent o.content → IfSome o.metadata.generation IsSmall → (name : List ℕ) (decision : Decision) (seen : List (List ℕ)) → IsSendable decision seen
        → ChangesFinalizers o (patch_on name seen decision) (is_as_seen name decision seen (finalizers_in o.metadata)) (patched_by name decision seen (finalizers_in o.metadata)) }
    ensures server { (revision : ℕ) (o : ObjectData) → IsContent o.content → IfSome o.metadata.generation IsSmall → (name : List ℕ) (decision : Decision) (seen : List (List ℕ)) → IsSendable decision seen
        → patch_change revision (patch_on name seen decision) o
        ≡ finalizers_changed revision o (is_as_seen name decision seen (finalizers_in o.metadata)) (patched_by name decision seen (finalizers_in o.metadata)) }
{}
