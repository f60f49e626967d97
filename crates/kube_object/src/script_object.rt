//! Objects of a script.

ghost use Rattle.std.specs.Prelude.{◌≡◌, false, refl};
ghost use Rattle.serde_json.specs.View.{view};
ghost use Rattle.serde_json.specs.Written.{has_float};
ghost use Rattle.kube_meta.specs.Places.{Gives};
ghost use Rattle.kube_meta.specs.Reading.{object_data_at, seen_object};

use kube_meta::{
    ApiResource, DynamicObject, ObjectFault, ObjectMeta, Resource, TypeMeta, read_object,
};
use serde_json::Value;
use std::alloc::Global;
use std::marker::Model;
use std::sync::Arc;

/// An object whose content has whole numbers of 64 bits alone, as an object that was read has. Contracts see it as
/// data.
#[derive(Drop)]
pub struct ScriptObject {
    object: DynamicObject,
}

impl Model for ScriptObject {
    ghost use Rattle.std.specs.Prelude.{◌≡◌, false};
    ghost use Rattle.serde_json.specs.View.{view as value_view};
    ghost use Rattle.serde_json.specs.Written.{has_float};
    ghost use Rattle.kube_meta.specs.Reading.{ObjectData, seen_object};
    ghost use Rattle.kube_object.specs.Stored.{object_code};

    ghost Value = { ObjectData };

    ghost coded = { object_code };

    ghost view = { λ s. seen_object s.object };

    ghost invariant = { λ s. has_float (value_view s.object.content) ≡ false };
}

impl ScriptObject {
    /// An object whose content holds no fraction, as a script's object.
    pub fn new(object: DynamicObject) -> ScriptObject
        requires { has_float (view object.content) ≡ false }
        ensures { result ≡ seen_object object }
    {
        ScriptObject { object }
    }

    /// The object that a value is, as `kube_meta::read_object` reads it. The value's members are moved and not copied.
    ///
    /// Errors: `Shape` and `Fraction` with the place of the first fault (a JSON Pointer, RFC 6901), and `NoMemory`.
    pub fn read(alloc: Global, value: Value) -> Result<ScriptObject, ObjectFault>
        ensures { Gives (λ o. o) result (object_data_at (view value)) }
    {
        match read_object(alloc, value) {
            Ok(object) => Ok(ScriptObject::new(object)),
            Err(fault) => Err(fault),
        }
    }

    /// The object's own word on its type.
    pub fn types(&self) -> &Option<TypeMeta>
        ensures { result.now ≡ self.now.types }
    {
        &self.object.types
    }

    /// The object's other members, whose numbers are whole. A value that is no object counts as empty.
    pub fn content(&self) -> &Value
        ensures value { view result.now ≡ self.now.content }
        ensures whole { has_float (view result.now) ≡ false }
    {
        &self.object.content
    }
}

impl Resource for ScriptObject {
    ghost use Rattle.kube_meta.specs.Resources.{resource_type};
    ghost use Rattle.std.proofs.Common.{rules};

    type DynamicType = Arc<ApiResource>;

    ghost type_of = { λ t. resource_type t.value };

    ghost meta_of = { λ o. o.metadata };

    ghost with_meta = { λ o m. record o { metadata = m } };

    ghost one_type = { Prim.search rules };

    ghost written = { λ o m. refl };

    fn kind(t: &Arc<ApiResource>) -> &str {
        t.kind.as_str()
    }

    fn group(t: &Arc<ApiResource>) -> &str {
        t.group.as_str()
    }

    fn version(t: &Arc<ApiResource>) -> &str {
        t.version.as_str()
    }

    fn plural(t: &Arc<ApiResource>) -> &str {
        t.plural.as_str()
    }

    fn meta(&self) -> &ObjectMeta {
        &self.object.metadata
    }

    fn meta_mut(&mut self) -> &mut ObjectMeta {
        &mut self.object.metadata
    }
}
