//! Subscribers of a writer (kube-runtime's `reflector::dispatcher`).

ghost use Rattle.std.specs.Prelude.{◌≡◌, ◌↔◌, ◌-◌, [], true, false, Some, IfOk, IfSome, IsNone, OnOk, OnErr, IsErr};
ghost use Rattle.std.specs.Arc.{arc_value};
ghost use Rattle.kube_reflect.specs.Subscribers.{next_map};
ghost use Rattle.kube_reflect.specs.Writers.{fresh, is_live, AllStay, OthersStay, new_reader, next_number, with_subscriber, without_subscriber, references_for, answer_for, after_answer};

use crate::store::{Store, Writer};
use kube_meta::{Next, NoMemory, Resource};
use std::alloc::Global;
use std::marker::{Model, PhantomData};
use std::sync::Arc;

/// A subscription to a writer: it is given the stored objects under the references that the writer is offered.
///
/// Contracts see it as the number of its subscriber, and whether it could have no memory. It is its writer's as long as
/// that number is one of a live subscriber of that writer. A subscriber is live until it leaves: where its handle is
/// dropped without that, it lags behind and no more offers are taken than it has room for. The number of one that has
/// left, which takes its handle, may be that of a later subscriber.
#[derive(Drop)]
pub struct ReflectHandle<K: Resource> {
    number: usize,
    is_spent: bool,
    of: PhantomData<K>,
}

impl<K: Resource> Model for ReflectHandle<K> {
    ghost use Rattle.kube_reflect.specs.Writers.{Handle};

    ghost Value = { Handle };

    ghost view = { λ h. record { number = h.number; is_spent = h.is_spent } };
}

impl<K: Resource> ReflectHandle<K> {
    // The handle of a subscriber.
    pub(crate) fn new(number: usize) -> ReflectHandle<K>
        ensures { result ≡ fresh number }
    {
        ReflectHandle {
            number,
            is_spent: false,
            of: PhantomData,
        }
    }

    /// The next object: that under the first offered reference that this subscriber has not taken and under which one is
    /// still stored. It has then taken that reference, and passed over those before it.
    ///
    /// `NotReady` where all are taken, and `End` where besides no more offers follow. After want of memory the writer is
    /// as before, and every further poll of this handle answers that alone.
    ///
    /// # Errors
    ///
    /// `NoMemory` where the object could not be shared, and in each poll after that.
    pub fn poll_next(
        &mut self,
        _alloc: Global,
        writer: &mut Writer<K>,
    ) -> Result<Next<Arc<K>>, NoMemory>
        requires { is_live writer.old self.old.number ≡ true }
        ensures answer { IfOk result (λ a. next_map arc_value a ≡ answer_for writer.old self.old.number) }
        ensures taken { OnOk result (writer.new ≡ after_answer writer.old self.old.number) }
        ensures handle { OnOk result (self.new ≡ self.old) }
        ensures err { OnErr result (writer.new ≡ writer.old) }
        ensures spent { OnErr result (self.new ≡ record self.old { is_spent = true }) }
        ensures stays_spent { self.old.is_spent ≡ true → IsErr result }
        ensures live { AllStay writer.old writer.new }
    {
        if self.is_spent {
            return Err(NoMemory);
        }
        let Ok(answer) = writer.take_next(self.number) else {
            self.is_spent = true;
            return Err(NoMemory);
        };
        Ok(answer)
    }

    /// One more subscription, to what this one has not taken yet and what is offered from now on.
    ///
    /// # Errors
    ///
    /// `NoMemory` where there is none for one subscriber more; the writer is then as before.
    pub fn clone(
        &self,
        _alloc: Global,
        writer: &mut Writer<K>,
    ) -> Result<ReflectHandle<K>, NoMemory>
        requires { is_live writer.old self.now.number ≡ true }
        ensures handle { IfOk result (λ h. h ≡ fresh (next_number writer.old)) }
        ensures writer { OnOk result (writer.new ≡ with_subscriber writer.old (references_for writer.old self.now.number)) }
        ensures own { IfOk result (λ h. is_live writer.new h.number ≡ true) }
        ensures err { OnErr result (writer.new ≡ writer.old) }
        ensures live { AllStay writer.old writer.new }
    {
        let number = writer.copy_subscriber(self.number)?;
        Ok(ReflectHandle::new(number))
    }

    /// A store handle of this subscription's writer. None where all its reader places were handed out.
    pub fn reader(&self, writer: &mut Writer<K>) -> Option<Store<K>>
        requires { is_live writer.old self.now.number ≡ true }
        ensures none { IsNone result ↔ (writer.old.readers ≡ 0) }
        ensures writer { writer.new ≡ record writer.old { readers = writer.old.readers - 1 } }
        ensures store { IfSome result (λ s. s ≡ new_reader writer.old) }
        ensures live { AllStay writer.old writer.new }
    {
        writer.as_reader()
    }

    /// Ends the subscription: what is offered waits for it no more.
    pub fn leave(self, writer: &mut Writer<K>)
        requires { is_live writer.old self.number ≡ true }
        ensures gone { writer.new ≡ without_subscriber writer.old self.number }
        ensures live { OthersStay self.number writer.old writer.new }
    {
        writer.end_subscriber(self.number);
    }
}
