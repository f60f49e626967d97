//! What a watcher tells.

ghost use Rattle.std.specs.Prelude.{◌≡◌, IfOk, Some};
ghost use Rattle.std.specs.Arc.{arc_value};
ghost use Rattle.kube_watch.specs.Events.{event_map, name_or_empty, shown, ChangesTo, IsModified};

use kube_meta::{NoMemory, Resource};
use std::fmt;
use std::sync::Arc;

/// What happened to the objects of a watcher (kube-runtime's `watcher::Event`).
///
/// Between an `Init` and the `InitDone` after it the objects that are there come as `InitApply`. What wasn't among
/// them by then is gone.
#[derive(Debug, Drop)]
pub enum Event<T> {
    /// An object was added or modified.
    Apply(T),
    /// An object was deleted.
    Delete(T),
    /// The objects that are there come next.
    Init,
    /// An object that is there.
    InitApply(T),
    /// All objects that are there came.
    InitDone,
}

impl<T> Event<T> {
    /// The event with its object changed. An event without one is as before, and `f` is not called.
    pub fn modify<F: FnMut(&mut T)>(self, f: F) -> Event<T>
        requires { F.IsAlwaysCallable f }
        ensures { IsModified F.FnMut f self result }
    {
        match self {
            Event::Apply(object) => Event::Apply(changed(object, f)),
            Event::Delete(object) => Event::Delete(changed(object, f)),
            Event::InitApply(object) => Event::InitApply(changed(object, f)),
            Event::Init => Event::Init,
            Event::InitDone => Event::InitDone,
        }
    }
}

impl<K: Drop> Event<Arc<K>> {
    /// The same event of the same object, which is shared.
    ///
    /// Errors: `NoMemory`.
    pub fn copy(&self) -> Result<Event<Arc<K>>, NoMemory>
        ensures { IfOk result (λ e. event_map arc_value e ≡ event_map arc_value self.now) }
    {
        Ok(match self {
            Event::Apply(object) => Event::Apply(object.clone()?),
            Event::Delete(object) => Event::Delete(object.clone()?),
            Event::Init => Event::Init,
            Event::InitApply(object) => Event::InitApply(object.clone()?),
            Event::InitDone => Event::InitDone,
        })
    }
}

/// The kind of the event, and the name of its object in parentheses: the empty text where it has none.
impl<K: Resource> fmt::Display for Event<Arc<K>> {
    ghost output = { λ e. Some (shown K.meta_of (event_map arc_value e)) };

    fn fmt<W: fmt::Write>(&self, f: &mut fmt::Formatter<W>) -> fmt::Result {
        match self {
            Event::Apply(object) => write!(f, "Apply({})", name_of(&**object)),
            Event::Delete(object) => write!(f, "Delete({})", name_of(&**object)),
            Event::Init => f.write_str("Init"),
            Event::InitApply(object) => write!(f, "InitApply({})", name_of(&**object)),
            Event::InitDone => f.write_str("InitDone"),
        }
    }
}

/// What a call of `f` leaves of an object.
fn changed<T, F: FnMut(&mut T)>(mut object: T, mut f: F) -> T
    requires { F.IsAlwaysCallable f }
    ensures { ChangesTo F.FnMut f object result }
{
    f(&mut object);
    object
}

/// The name of an object, or the empty text.
fn name_of<K: Resource>(object: &K) -> &str
    ensures { result.now ≡ name_or_empty (K.meta_of object.now) }
{
    match &object.meta().name {
        Some(name) => name.as_str(),
        None => "",
    }
}
