//! References: shown, compared, hashed, of known types, of owners, and in other forms.

ghost use Rattle.std.specs.Prelude.{[], codes, refl};

use super::{is, named, resource, text};
use kube_meta::{
    ApiResource, DynamicObject, Lookup, ObjectMeta, ObjectRef, ObjectReference, OwnerReference,
    PartialObjectMeta, Resource, Text, TypeInfo,
};
use std::alloc::Global;
use std::hash::{DefaultHasher, Hash, Hasher};
use std::marker::PhantomData;
use std::panic::Expect;
use std::process::Abort;
use std::sync::Arc;

/// A node, whose type is known.
#[derive(Drop)]
struct Node {
    metadata: ObjectMeta,
}

impl Resource for Node {
    type DynamicType = ();

    ghost type_of = { λ t. record { group = []; version = codes "v1"; kind = codes "Node"; plural = codes "nodes" } };

    ghost meta_of = { λ o. o.metadata };

    ghost with_meta = { λ o m. record o { metadata = m } };

    ghost one_type = { λ a b e. refl };

    ghost written = { λ o m. refl };

    fn kind(_t: &()) -> &str {
        "Node"
    }

    fn group(_t: &()) -> &str {
        ""
    }

    fn version(_t: &()) -> &str {
        "v1"
    }

    fn plural(_t: &()) -> &str {
        "nodes"
    }

    fn meta(&self) -> &ObjectMeta {
        &self.metadata
    }

    fn meta_mut(&mut self) -> &mut ObjectMeta {
        &mut self.metadata
    }
}

fn hash_of<K: Resource>(reference: &ObjectRef<K>) -> u64 {
    let mut state = DefaultHasher::new();
    reference.hash(&mut state);
    state.finish()
}

/// A reference is shown so.
fn shows<K: Resource>(rt: &impl Abort, alloc: Global, reference: &ObjectRef<K>, wanted: &str) {
    let shown = format!(in alloc; "{reference}").expect(rt, "memory");
    assert_eq!(rt; shown.as_str(), wanted);
}

/// Kinds, groups, names and namespaces, and how the references and the `apiVersion` of their types are shown; `-` for an empty text, and
/// `none` for no namespace.
const SHOWN: &str = "\
Pod - my-pod my-namespace Pod.v1./my-pod.my-namespace v1
Deployment apps my-deploy my-namespace Deployment.v1.apps/my-deploy.my-namespace apps/v1
Node - my-node none Node.v1./my-node v1
Node - a - Node.v1./a. v1";

/// A reference is shown so, hashes to this, and is of a type of this `apiVersion`.
fn is_erased(
    rt: &impl Abort,
    alloc: Global,
    reference: &ObjectRef<DynamicObject>,
    hash: u64,
    wanted: &str,
    api_version: &str,
) {
    assert_eq!(rt; hash_of(reference), hash);
    assert_eq!(rt; reference.dyntype.api_version.as_str(), api_version);
    shows(rt, alloc, reference, wanted);
}

fn erased<K: Resource>(
    rt: &impl Abort,
    alloc: Global,
    reference: ObjectRef<K>,
) -> ObjectRef<DynamicObject> {
    reference.erase(alloc).expect(rt, "memory")
}

/// A reference is shown so, and looks and hashes the same when it is erased.
fn erases<K: Resource>(
    rt: &impl Abort,
    alloc: Global,
    reference: ObjectRef<K>,
    wanted: &str,
    api_version: &str,
) {
    shows(rt, alloc, &reference, wanted);
    let hash = hash_of(&reference);
    let erased = erased(rt, alloc, reference);
    is_erased(rt, alloc, &erased, hash, wanted, api_version);
}

/// The reference of an object.
fn of_object(
    rt: &impl Abort,
    alloc: Global,
    kind: &str,
    group: &str,
    name: &str,
    namespace: Option<&str>,
) -> ObjectRef<DynamicObject> {
    let object = named(rt, alloc, name, namespace);
    let resource = resource(rt, alloc, kind, group, "things");
    object.to_object_ref(alloc, resource).expect(rt, "a name")
}

/// What stands before the first space, and what behind it.
fn halves(line: &str) -> (&str, &str) {
    line.split_once(' ').unwrap_or((line, ""))
}

fn or_empty(word: &str) -> &str {
    match word {
        "-" => "",
        _ => word,
    }
}

fn namespace_of(word: &str) -> Option<&str> {
    match word {
        "none" => None,
        _ => Some(or_empty(word)),
    }
}

/// A row is so.
fn is_shown(rt: &impl Abort, alloc: Global, line: &str) {
    let (kind, rest) = halves(line);
    let (group, rest) = halves(rest);
    let (name, rest) = halves(rest);
    let (namespace, rest) = halves(rest);
    let (wanted, api_version) = halves(rest);
    let (group, namespace) = (or_empty(group), namespace_of(namespace));
    let reference = of_object(rt, alloc, kind, group, name, namespace);
    erases(rt, alloc, reference, wanted, api_version);
}

#[test]
fn references_are_shown_and_look_the_same_erased(rt: HostRuntime) {
    for line in SHOWN.split('\n') {
        is_shown(&rt, rt.alloc(), line);
    }
    let node = ObjectRef::<Node>::new(rt.alloc(), "my-node").expect(&rt, "memory");
    erases(&rt, rt.alloc(), node, "Node.v1./my-node", "v1");
}

fn pods(rt: &impl Abort, alloc: Global) -> Arc<ApiResource> {
    resource(rt, alloc, "Pod", "", "things")
}

fn shared(rt: &impl Abort, alloc: Global, resource: &Arc<ApiResource>) -> Arc<ApiResource> {
    resource.share(alloc).expect(rt, "memory")
}

/// The reference of a pod that is there.
fn of_pod(rt: &impl Abort, alloc: Global, pods: &Arc<ApiResource>) -> ObjectRef<DynamicObject> {
    let object = named(rt, alloc, "a", None);
    let pods = shared(rt, alloc, pods);
    ObjectRef::from_obj_with(alloc, &object, pods).expect(rt, "a name")
}

/// The same by its name.
fn by_name(rt: &impl Abort, alloc: Global, pods: &Arc<ApiResource>) -> ObjectRef<DynamicObject> {
    let pods = shared(rt, alloc, pods);
    ObjectRef::new_with(alloc, "a", pods).expect(rt, "memory")
}

/// Two references are equal and hash the same, and the first alone has a uid.
fn are_alike<R: Abort>(
    rt: &R,
    of_object: &ObjectRef<DynamicObject>,
    by_name: &ObjectRef<DynamicObject>,
) {
    assert!(rt; of_object == by_name);
    assert_eq!(rt; hash_of(of_object), hash_of(by_name));
    assert!(rt; of_object.extra.uid.is_some());
    assert!(rt; by_name.extra.uid.is_none());
}

/// A copy of the reference of a pod that is there.
fn copied_pod(rt: &impl Abort, alloc: Global, pods: &Arc<ApiResource>) -> ObjectRef<DynamicObject> {
    let of_object = of_pod(rt, alloc, pods);
    of_object.copy(alloc).expect(rt, "memory")
}

#[test]
fn copies_keep_extra(rt: HostRuntime) {
    let alloc = rt.alloc();
    let pods = pods(&rt, alloc);
    let copy = copied_pod(&rt, alloc, &pods);
    let by_name = by_name(&rt, alloc, &pods);
    are_alike(&rt, &copy, &by_name);
}

fn deployments(rt: &impl Abort, alloc: Global) -> Arc<ApiResource> {
    resource(rt, alloc, "Deployment", "apps", "deployments")
}

fn owner(rt: &impl Abort, alloc: Global, api_version: &str, kind: &str) -> OwnerReference {
    OwnerReference {
        api_version: text(rt, alloc, api_version),
        kind: text(rt, alloc, kind),
        name: text(rt, alloc, "n"),
        uid: text(rt, alloc, "u"),
    }
}

/// The reference to an owner is shown so and has its uid alone.
fn is_owner<K: Resource>(
    rt: &impl Abort,
    alloc: Global,
    reference: &Option<ObjectRef<K>>,
    wanted: &str,
) {
    match reference {
        Some(reference) => {
            assert!(rt; is(&reference.extra.uid, "u"));
            assert!(rt; reference.extra.resource_version.is_none());
            shows(rt, alloc, reference, wanted);
        }
        None => assert_eq!(rt; "", wanted),
    }
}

/// The reference of an object in this namespace to an owner of this type is shown so, or there is none.
fn owns<R: Abort, K: Resource>(
    rt: &R,
    alloc: Global,
    t: K::DynamicType,
    namespace: Option<&str>,
    api_version: &str,
    kind: &str,
    wanted: &str,
) {
    let owner = owner(rt, alloc, api_version, kind);
    let found = ObjectRef::<K>::from_owner_ref(alloc, namespace, &owner, t).expect(rt, "memory");
    is_owner(rt, alloc, &found, wanted);
}

#[test]
fn owners_of_the_type_alone(rt: HostRuntime) {
    let alloc = rt.alloc();
    owns::<HostRuntime, Node>(&rt, alloc, (), Some("ns"), "v1", "Node", "Node.v1./n.ns");
    owns::<HostRuntime, Node>(&rt, alloc, (), None, "v1", "Pod", "");
    owns::<HostRuntime, Node>(&rt, alloc, (), None, "v2", "Node", "");
    let deployment = deployments(&rt, alloc);
    owns::<HostRuntime, DynamicObject>(
        &rt,
        alloc,
        deployment,
        None,
        "apps/v1",
        "Deployment",
        "Deployment.v1.apps/n",
    );
}

/// Metadata of the version 7, with the name `n`.
fn metadata(rt: &impl Abort, alloc: Global) -> ObjectMeta {
    ObjectMeta {
        name: Some(text(rt, alloc, "n")),
        resource_version: Some(text(rt, alloc, "7")),
        ..ObjectMeta::empty()
    }
}

/// The reference of a node, taken for that of a deployment.
fn taken_for_deployment(rt: &impl Abort, alloc: Global) -> ObjectRef<DynamicObject> {
    let node = Node {
        metadata: metadata(rt, alloc),
    };
    let reference = ObjectRef::from_obj(alloc, &node).expect(rt, "a name");
    reference.into_kind_unchecked::<DynamicObject>(deployments(rt, alloc))
}

/// Whether a reference of the API names the version 7 of the deployment `n`, and no more.
fn names_deployment(reference: &ObjectReference) -> bool {
    is(&reference.api_version, "apps/v1")
        && is(&reference.kind, "Deployment")
        && is(&reference.name, "n")
        && is(&reference.resource_version, "7")
        && reference.namespace.is_none()
        && reference.uid.is_none()
        && reference.field_path.is_none()
}

/// Whether that reference becomes such a one.
fn becomes_deployment(rt: &impl Abort, alloc: Global) -> bool {
    let reference = taken_for_deployment(rt, alloc);
    let reference = reference.into_reference(alloc).expect(rt, "memory");
    names_deployment(&reference)
}

#[test]
fn references_become_others(rt: HostRuntime) {
    let alloc = rt.alloc();
    assert!(rt; becomes_deployment(&rt, alloc));
    let reference = taken_for_deployment(&rt, alloc);
    shows(&rt, alloc, &reference, "Deployment.v1.apps/n");
}

/// An object of which the metadata alone is there.
fn metadata_alone(rt: &impl Abort, alloc: Global) -> PartialObjectMeta<DynamicObject> {
    PartialObjectMeta {
        types: None,
        metadata: metadata(rt, alloc),
        of: PhantomData,
    }
}

/// Its reference.
fn of_metadata_alone(
    rt: &impl Abort,
    alloc: Global,
) -> ObjectRef<PartialObjectMeta<DynamicObject>> {
    let object = metadata_alone(rt, alloc);
    let deployments = deployments(rt, alloc);
    object
        .to_object_ref(alloc, deployments)
        .expect(rt, "a name")
}

/// Whether the `apiVersion` of deployments is so.
fn has_version(rt: &impl Abort, alloc: Global, wanted: &str) -> bool {
    let resource = deployments(rt, alloc);
    let version = <PartialObjectMeta<DynamicObject> as Lookup>::api_version(
        alloc, &resource,
    ).expect(rt, "memory");
    version.as_str() == wanted
}

/// Whether that of nodes is so.
fn nodes_have_version(rt: &impl Abort, alloc: Global, wanted: &str) -> bool {
    let version = <Node as Lookup>::api_version(alloc, &()).expect(rt, "memory");
    version.as_str() == wanted
}

#[test]
fn metadata_alone_is_an_object(rt: HostRuntime) {
    let alloc = rt.alloc();
    assert!(rt; has_version(&rt, alloc, "apps/v1"));
    assert!(rt; nodes_have_version(&rt, alloc, "v1"));
    let reference = of_metadata_alone(&rt, alloc);
    shows(&rt, alloc, &reference, "Deployment.v1.apps/n");
}
