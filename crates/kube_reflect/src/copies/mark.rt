//! A list of entries that a book reached.

ghost use Rattle.std.specs.Prelude.{◌≡◌, length};

use crate::copies::law::{Entry, Law};
use kube_meta::{NoMemory, Resource};
use logbook::Seen;
use std::sync::Arc;

/// A beginning of the list of what a writer tells, with its length.
#[derive(Drop)]
pub struct Mark<K> {
    pub len: u64,
    pub seen: Seen<Entry<K>, u64, Law>,
    ghost fits: { len ≡ length seen.log },
}

impl<K> Mark<K> {
    /// The same beginning once more.
    pub fn again(&self) -> Mark<K>
        ensures { result.seen ≡ self.now.seen }
    {
        Mark {
            len: self.len,
            seen: self.seen.again(),
        }
    }
}

/// A list of what a writer tells, and the type of the objects.
#[derive(Drop)]
pub struct Origin<K: Resource> {
    pub dyntype: Arc<K::DynamicType>,
    pub mark: Mark<K>,
}

impl<K: Resource> Origin<K> {
    ghost use Rattle.std.specs.Prelude.{◌≡◌, IfOk};
    ghost use Rattle.std.specs.Arc.{arc_value};

    /// The same list and type once more.
    ///
    /// Errors: `NoMemory`.
    pub fn again(&self) -> Result<Origin<K>, NoMemory>
        ensures { IfOk result (λ o. (arc_value o.dyntype ≡ arc_value self.now.dyntype) × (o.mark.seen ≡ self.now.mark.seen)) }
    {
        Ok(Origin {
            dyntype: Arc::try_clone(&self.dyntype)?,
            mark: self.mark.again(),
        })
    }
}
