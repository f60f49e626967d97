//! Objects of a type that is known as the program is built.

ghost use Rattle.std.specs.Prelude.{[], codes, refl};

use kube_meta::{ObjectMeta, Resource};

/// A node.
#[derive(Drop)]
pub struct Node {
    pub metadata: ObjectMeta,
}

impl Resource for Node {
    type DynamicType = ();

    ghost type_of = { λ t. record { group = []; version = codes "v1"; kind = codes "Node"; plural = codes "nodes" } };

    ghost meta_of = { λ o. o.metadata };

    ghost with_meta = { λ o m. record o { metadata = m } };

    ghost one_type = { λ a b e. refl };

    ghost written = { λ o m. refl };

    fn kind(_t: &()) -> &str {
        "Node"
    }

    fn group(_t: &()) -> &str {
        ""
    }

    fn version(_t: &()) -> &str {
        "v1"
    }

    fn plural(_t: &()) -> &str {
        "nodes"
    }

    fn meta(&self) -> &ObjectMeta {
        &self.metadata
    }

    fn meta_mut(&mut self) -> &mut ObjectMeta {
        &mut self.metadata
    }
}
