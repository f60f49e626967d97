//! What a server's objects were asked, and what they answered.

use kube_api::{DeleteAnswer, Patch, PatchAnswer};
use kube_meta::{DynamicObject, Text};

/// A call with its answer.
#[derive(Drop)]
pub(crate) enum ObjectTold {
    Patch(Text, Vec<Patch>, PatchAnswer<DynamicObject>),
    Delete(Text, DeleteAnswer<DynamicObject>),
}
