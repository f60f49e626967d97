//! Deleting an object, and waiting until it is gone (kube-runtime's `wait::delete`).

ghost use Rattle.std.specs.Prelude.{◌≡◌, ◌≤◌, true, false, Some, None, IfOk, OnOk, OnErr, IsErr};
ghost use Rattle.std.specs.Arc.{arc_value};
ghost use Rattle.kube_api.specs.ObjectTalk.{delete_answer};
ghost use Rattle.kube_watch.specs.Objects.{IsOpened};
ghost use Rattle.kube_watch.specs.Polls.{api_in};
ghost use Rattle.kube_final.specs.Deletions.{IsAsked, IsAskedAtMostOnce, IsAwaited, IsDeletedBy, IsLostBy, IsWaitLost, deletion_by, ended, known};
ghost use Rattle.kube_final.specs.FinalizerPolls.{objects_in};
ghost use Rattle.kube_final.specs.Waits.{is_item, next_probed};

use crate::conditions::is_deleted;
use crate::wait::{Error as WaitError, is_item, poll_end};
use kube_api::{ApiError, ApiMode, DeleteAnswer, ObjectApi};
use kube_meta::text::copy_option;
use kube_meta::{Moment, Next, NoMemory, Polled, Resource, Text};
use kube_watch::{WatchObject, watch_object};
use std::alloc::Global;
use std::marker::Model;
use std::sync::Arc;
use thiserror::Error;

/// Why an object could not be deleted (in place of `kube::Error`).
#[derive(Debug, Drop, Error)]
pub enum DeleteFailed {
    /// There is no object of that name.
    #[error("NotFound")]
    NotFound,
    #[error("{0}")]
    Fault(ApiError),
}

/// Why an object is not known to be gone (`wait::delete::Error`).
#[derive(Debug, Drop, Error)]
pub enum Error {
    /// The reply to the deletion has no uid, or an empty one.
    #[error("deleted object has no UID to wait for")]
    NoUid,
    #[error("failed to delete object: {0}")]
    Delete(DeleteFailed),
    #[error("failed to wait for object to be deleted: {0}")]
    Await(WaitError),
}

/// What an answer to a deletion comes to.
#[derive(Drop)]
enum Deletion {
    Later,
    /// The uid to wait for.
    Told(Text),
    Failed(Error),
}

/// A uid can be waited for where it is no empty text.
fn known(uid: Option<Text>) -> Deletion
    ensures { result ≡ known uid }
{
    match uid {
        Some(uid) if !uid.is_empty() => Deletion::Told(uid),
        _ => Deletion::Failed(Error::NoUid),
    }
}

fn uid_of<V: Resource>(alloc: Global, object: &Arc<V>) -> Result<Option<Text>, NoMemory>
    ensures { IfOk result (λ u. u ≡ (V.meta_of (arc_value object.now)).uid) }
{
    let object: &V = object;
    copy_option(alloc, &object.meta().uid)
}

/// What an answer to a deletion comes to.
///
/// Errors: `NoMemory`.
fn deletion_by<V: Resource>(
    alloc: Global,
    answer: Polled<DeleteAnswer<V>>,
) -> Result<Deletion, NoMemory>
    ensures { IfOk result (λ d. deletion_by V.meta_of (delete_answer answer) ≡ Some d) }
{
    match answer {
        Polled::NotReady => Ok(Deletion::Later),
        Polled::Ready(DeleteAnswer::Object(object)) => Ok(known(uid_of(alloc, &object)?)),
        Polled::Ready(DeleteAnswer::Status(status)) => Ok(known(status.uid)),
        Polled::Ready(DeleteAnswer::NotFound) => {
            Ok(Deletion::Failed(Error::Delete(DeleteFailed::NotFound)))
        }
        Polled::Ready(DeleteAnswer::Fault(error)) => {
            Ok(Deletion::Failed(Error::Delete(DeleteFailed::Fault(error))))
        }
    }
}

/// Asks for the deletion of the object of a name.
///
/// Errors: `NoMemory`.
fn ask<O: ObjectApi>(
    alloc: Global,
    objects: &mut O,
    name: &Text,
    now: Moment,
) -> Result<Deletion, NoMemory>
    ensures asked { IfOk result (λ d. IsAsked (objects_in O.ObjectApi) O.Value.meta_of name.now now.0 objects.old d objects.new) }
    ensures lost { OnErr result (IsAskedAtMostOnce (objects_in O.ObjectApi) O.Value.meta_of name.now now.0 objects.old objects.new) }
    ensures rises { O.faults objects.old ≤ O.faults objects.new }
{
    let answer = objects.delete(alloc, name.as_str(), now)?;
    deletion_by(alloc, answer)
}

/// The answer of a poll by that of the wait.
fn ended<K: Drop>(answer: Next<Result<Option<Arc<K>>, WaitError>>) -> Next<Result<(), Error>>
    ensures { result ≡ ended (next_probed answer) }
{
    match answer {
        Next::Item(Ok(_)) => Next::Item(Ok(())),
        Next::Item(Err(error)) => Next::Item(Err(Error::Await(error))),
        Next::NotReady => Next::NotReady,
        Next::Spent => Next::Spent,
        Next::End => Next::End,
    }
}

/// Deletes an object, and waits until it is gone (what kube-runtime's `delete_and_finalize` gives).
#[derive(Drop)]
pub struct DeleteAndFinalize<A: ApiMode> {
    name: Text,
    watch: WatchObject<A>,
    /// The uid to wait for, once the deletion has told it.
    uid: Option<Text>,
    over: bool,
    spent: bool,
}

impl<A: ApiMode> Model for DeleteAndFinalize<A> {
    ghost use Rattle.kube_final.specs.Waiting.{Deleting};

    ghost Value = { Deleting A A.Value };

    ghost view = { λ d. record { name = d.name; watch = d.watch; uid = d.uid; is_over = d.over; is_spent = d.spent } };

    ghost use Rattle.kube_final.specs.Waiting.{IsLive};

    ghost invariant = { λ d. ∥ IsLive d.watch ∥₁ };
}

impl<A: ApiMode> DeleteAndFinalize<A> {
    ghost use Rattle.std.specs.Borrow.{sem};
    ghost use Rattle.kube_watch.specs.Stands.{api_of};
    ghost use Rattle.kube_final.specs.Lending.{LendsDeletingApi};

    /// Deletes the object of a name, which the API watches alone.
    ///
    /// Errors: `NoMemory`.
    pub fn new(alloc: Global, api: A, name: &str) -> Result<DeleteAndFinalize<A>, NoMemory>
        ensures opened { IfOk result (λ d. IsOpened api name.now d.watch) }
        ensures fresh { IfOk result (λ d. d ≡ record { name = name.now; watch = d.watch; uid = None; is_over = false; is_spent = false }) }
    {
        Ok(DeleteAndFinalize {
            name: Text::new(alloc, name)?,
            watch: watch_object(alloc, api, name)?,
            uid: None,
            over: false,
            spent: false,
        })
    }

    /// Ready once the object whose uid the deletion told is gone, or another one has its name. The deletion is asked again
    /// only where its last answer was not ready.
    ///
    /// `NotReady` where the deletion or a call of the watch was not ready; `Spent` after `fuel` calls of the watch that told
    /// nothing of it. It never ends.
    ///
    /// Errors: `NoMemory`, and only that from then on. `Delete` where the deletion failed, `NoUid` where its reply has no
    /// uid or an empty one, `Await` where the wait failed.
    pub fn poll<O: ObjectApi>(
        &mut self,
        alloc: Global,
        objects: &mut O,
        now: Moment,
        fuel: u32,
    ) -> Result<Next<Result<(), Error>>, NoMemory>
        requires unready { self.old.is_over ≡ false }
        requires fuel { 1 ≤ fuel }
        ensures deleted { IfOk result (λ a. IsDeletedBy (objects_in O.ObjectApi) O.Value.meta_of
            (api_in A.ApiMode A.Value.meta_of) A.Value.meta_of
            now.0 fuel self.old.uid objects.old self.old a objects.new self.new) }
        ensures name { self.new.name ≡ self.old.name }
        ensures over { IfOk result (λ a. self.new.is_over ≡ is_item a) }
        ensures rises { O.faults objects.old ≤ O.faults objects.new }
        ensures err { OnErr result (self.new.is_spent ≡ true) }
        ensures lost { OnErr result (IsLostBy (objects_in O.ObjectApi) O.Value.meta_of
            (api_in A.ApiMode A.Value.meta_of) A.Value.meta_of
            now.0 fuel self.old.uid objects.old self.old objects.new self.new) }
        ensures again { OnErr result (self.new.is_over ≡ false) }
        ensures unspent { OnOk result (self.new.is_spent ≡ false) }
        ensures spent { self.old.is_spent ≡ true → IsErr result × (self.new ≡ self.old) × (objects.new ≡ objects.old) }
    {
        if self.spent {
            return Err(NoMemory);
        }
        self.spent = true;
        if let Some(uid) = self.uid.take() {
            return self.wait(alloc, uid, now, fuel);
        }
        match ask(alloc, objects, &self.name, now)? {
            Deletion::Told(uid) => self.wait(alloc, uid, now, fuel),
            Deletion::Later => {
                self.spent = false;
                Ok(Next::NotReady)
            }
            Deletion::Failed(error) => {
                self.spent = false;
                self.over = true;
                Ok(Next::Item(Err(error)))
            }
        }
    }

    /// The API of the watch. All else is as before.
    pub fn api_mut(&mut self) -> &mut A
        ensures* lends { sem 𝓛 (LendsDeletingApi A.row A.Value.row A.Value.DynamicType.row A.ApiMode A.Value.Resource A.Value.DynamicType.Hash self.entry result) }
        ensures value { result.now ≡ api_of self.old.watch.watcher }
    {
        self.watch.api_mut()
    }

    // Waits until the object of a uid is gone.
    fn wait(
        &mut self,
        alloc: Global,
        uid: Text,
        now: Moment,
        fuel: u32,
    ) -> Result<Next<Result<(), Error>>, NoMemory>
        ensures awaited { IfOk result (λ a. IsAwaited (api_in A.ApiMode A.Value.meta_of) A.Value.meta_of
            uid now.0 fuel self.old a self.new) }
        ensures over { IfOk result (λ a. self.new.is_over ≡ is_item a) }
        ensures name { self.new.name ≡ self.old.name }
        ensures unspent { OnOk result (self.new.is_spent ≡ false) }
        ensures err { OnErr result (self.new ≡ record self.old { watch = self.new.watch }) }
        ensures lost { OnErr result (IsWaitLost (api_in A.ApiMode A.Value.meta_of) A.Value.meta_of
            uid now.0 fuel self.old self.new) }
    {
        let answer = poll_end(&mut self.watch, &is_deleted(uid.as_str()), alloc, now, fuel)?;
        let answer = ended(answer);
        self.uid = Some(uid);
        self.spent = false;
        self.over = is_item(&answer);
        Ok(answer)
    }
}
