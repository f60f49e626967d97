//! Objects, references and events that are said by words, and the words for what was found.

use kube_meta::{ApiResource, DynamicObject, ObjectMeta, ObjectRef, Text, TextMap};
use kube_reflect::Writer;
use kube_watch::Event;
use std::alloc::Global;
use std::panic::Expect;
use std::process::Abort;
use std::sync::Arc;

pub type Object = Arc<DynamicObject>;

pub type Maps = Writer<DynamicObject>;

/// What stands before the first of this sign, and what behind it.
pub fn halves(text: &str, sign: char) -> (&str, &str) {
    text.split_once(sign).unwrap_or((text, ""))
}

fn some_text(rt: &impl Abort, alloc: Global, text: &str) -> Option<Text> {
    if text.is_empty() {
        return None;
    }
    Some(Text::new(alloc, text).expect(rt, "memory"))
}

fn some_labels(rt: &impl Abort, alloc: Global, app: &str) -> Option<TextMap> {
    let app = some_text(rt, alloc, app)?;
    let mut labels = TextMap::new(alloc);
    labels.insert(alloc, "app", app).expect(rt, "memory");
    Some(labels)
}

/// An object of this name.
pub fn named(rt: &impl Abort, alloc: Global, name: &str) -> Object {
    let object = DynamicObject::bare(ObjectMeta {
        name: Some(Text::new(alloc, name).expect(rt, "memory")),
        ..ObjectMeta::empty()
    });
    Arc::new(alloc, object).expect(rt, "memory")
}

/// The object of a word: its name, its namespace, its label `app` and its generation, with a stroke between them. What is empty isn't
/// there.
pub fn object_of(rt: &impl Abort, alloc: Global, word: &str) -> Object {
    let (name, rest) = halves(word, '/');
    let (namespace, rest) = halves(rest, '/');
    let (app, generation) = halves(rest, '/');
    let object = DynamicObject::bare(ObjectMeta {
        name: some_text(rt, alloc, name),
        namespace: some_text(rt, alloc, namespace),
        labels: some_labels(rt, alloc, app),
        generation: generation.parse().ok(),
        ..ObjectMeta::empty()
    });
    Arc::new(alloc, object).expect(rt, "memory")
}

/// The event of a word and that of its object.
pub fn event_of(rt: &impl Abort, alloc: Global, said: &str) -> Event<Object> {
    let (kind, word) = halves(said, ' ');
    match kind {
        "Init" => Event::Init,
        "InitDone" => Event::InitDone,
        "Apply" => Event::Apply(object_of(rt, alloc, word)),
        "Delete" => Event::Delete(object_of(rt, alloc, word)),
        _ => Event::InitApply(object_of(rt, alloc, word)),
    }
}

/// The type of config maps.
pub fn type_of(rt: &impl Abort, alloc: Global) -> Arc<ApiResource> {
    let kind = ApiResource::new(alloc, "", "v1", "ConfigMap", "configmaps").expect(rt, "memory");
    Arc::new(alloc, kind).expect(rt, "memory")
}

/// The reference of a config map of this name, and of this namespace behind a stroke.
pub fn key_of(rt: &impl Abort, alloc: Global, word: &str) -> ObjectRef<DynamicObject> {
    let (name, namespace) = halves(word, '/');
    let reference = ObjectRef::new_with(alloc, name, type_of(rt, alloc)).expect(rt, "memory");
    if namespace.is_empty() {
        return reference;
    }
    reference.within(alloc, namespace).expect(rt, "memory")
}

/// The name of an object, or the empty text.
pub fn name_of(object: &DynamicObject) -> &str {
    match &object.metadata.name {
        Some(name) => name.as_str(),
        None => "",
    }
}

pub fn text_of(rt: &impl Abort, alloc: Global, text: &str) -> String {
    String::from_str(alloc, text).expect(rt, "memory")
}

fn push_name(rt: &impl Abort, names: &mut String, name: &str) {
    names.push_str(" ").expect(rt, "memory");
    names.push_str(name).expect(rt, "memory");
}

/// The names of objects, in order, each with a space before it.
pub fn names_of(rt: &impl Abort, alloc: Global, objects: Vec<Object>) -> String {
    let mut names = String::new(alloc);
    for object in &objects {
        push_name(rt, &mut names, name_of(&**object));
    }
    names
}

/// The same of references.
pub fn names_in(rt: &impl Abort, alloc: Global, keys: Vec<ObjectRef<DynamicObject>>) -> String {
    let mut names = String::new(alloc);
    for key in &keys {
        push_name(rt, &mut names, key.name.as_str());
    }
    names
}

/// The name of an object that was found.
pub fn found_name(rt: &impl Abort, alloc: Global, found: Option<&Object>) -> String {
    match found {
        Some(object) => text_of(rt, alloc, name_of(&**object)),
        None => text_of(rt, alloc, "none"),
    }
}
