//! Entries of a log.

ghost use Rattle.std.specs.Prelude.{◌≡◌, IfOk};
ghost use Rattle.std.specs.Arc.{arc_value};
ghost use Rattle.kube_model.specs.Raw.{RawAnswer};
ghost use Rattle.kube_api.specs.Answers.{event_answer};
ghost use Rattle.kube_server.specs.History.{object_of};
ghost use Rattle.kube_server.specs.Connections.{event_of};
ghost use Rattle.kube_server.specs.Stored.{change_of};

use kube_api::WatchEvent;
use kube_meta::{DynamicObject, NoMemory};
use std::sync::Arc;

/// One change of a server's objects. Its revision is its number in the log, from 1.
#[derive(Drop)]
pub(crate) enum Entry {
    Added(Arc<DynamicObject>),
    Modified(Arc<DynamicObject>),
    /// With the object as it was last.
    Deleted(Arc<DynamicObject>),
}

impl Entry {
    /// The object that was changed.
    pub(crate) fn object(&self) -> &Arc<DynamicObject>
        ensures { arc_value result.now ≡ object_of (change_of self.now) }
    {
        match self {
            Entry::Added(object) => object,
            Entry::Modified(object) => object,
            Entry::Deleted(object) => object,
        }
    }

    /// The same entry; its object is shared.
    ///
    /// Errors: `NoMemory`.
    pub(crate) fn share(&self) -> Result<Entry, NoMemory>
        ensures { IfOk result (λ e. change_of e ≡ change_of self.now) }
    {
        Ok(match self {
            Entry::Added(object) => Entry::Added(object.clone()?),
            Entry::Modified(object) => Entry::Modified(object.clone()?),
            Entry::Deleted(object) => Entry::Deleted(object.clone()?),
        })
    }

    /// How a watch tells it.
    ///
    /// Errors: `NoMemory`.
    pub(crate) fn event(&self) -> Result<WatchEvent<DynamicObject>, NoMemory>
        ensures { IfOk result (λ e. event_answer e ≡ event_of (change_of self.now)) }
    {
        Ok(match self {
            Entry::Added(object) => WatchEvent::Added(object.clone()?),
            Entry::Modified(object) => WatchEvent::Modified(object.clone()?),
            Entry::Deleted(object) => WatchEvent::Deleted(object.clone()?),
        })
    }
}
