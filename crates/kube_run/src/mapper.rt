//! How a script's related objects become references to the root's.

ghost use Rattle.std.specs.Prelude.{◌≡◌};
ghost use Rattle.kube_object.specs.Named.{named_type};
ghost use Rattle.kube_script.specs.SeenScript.{seen_map};
ghost use Rattle.kube_run.specs.Mapped.{mapped_as, mapped_by};

use kube_asks::{ByLabel, Mapper, Owners};
use kube_meta::{ApiResource, List, NoMemory, ObjectRef};
use kube_object::ScriptObject;
use kube_script::Mapped;
use std::alloc::Global;
use std::sync::Arc;

/// Maps objects to their owners of the root's type, or to the object of it that a label names.
#[derive(Drop)]
pub enum ScriptMapper {
    Owners(Owners<ScriptObject>),
    Label(ByLabel<ScriptObject>),
}

impl ScriptMapper {
    /// The mapper that a script tells, to objects of the root's type.
    pub fn new(dyntype: Arc<ApiResource>, mapped: Mapped) -> ScriptMapper
        ensures { mapped_as result ≡ mapped_by (named_type dyntype) (seen_map mapped) }
    {
        match mapped {
            Mapped::ByOwners => ScriptMapper::Owners(Owners { dyntype }),
            Mapped::ByLabel(label) => ScriptMapper::Label(ByLabel { label, dyntype }),
        }
    }
}

impl Mapper<ScriptObject, ScriptObject> for ScriptMapper {
    ghost use Rattle.std.specs.Prelude.{◌≡◌};
    ghost use Rattle.kube_run.specs.Mapped.{mapped_as};

    ghost answers = { λ m o rs. rs ≡ mapped_as m o };

    fn references(
        &self,
        alloc: Global,
        object: &Arc<ScriptObject>,
    ) -> Result<List<ObjectRef<ScriptObject>>, NoMemory> {
        match self {
            ScriptMapper::Owners(owners) => owners.references(alloc, object),
            ScriptMapper::Label(label) => label.references(alloc, object),
        }
    }
}
