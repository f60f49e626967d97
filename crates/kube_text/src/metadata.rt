//! Metadata as a trace shows it.

ghost use Rattle.std.specs.Prelude.{◌≡◌, ℤ, ℕ, List, map, option_map};
ghost use Rattle.serde_json.specs.Data.{number as number_data};
ghost use Rattle.serde_json.specs.Find.{of_integer};
ghost use Rattle.kube_meta.specs.Reading.{unless_empty};
ghost use Rattle.kube_meta.specs.Writing.{meta_data, owner_data, texts_data};
ghost use Rattle.kube_meta.specs.declared.metadata.ObjectMeta.{ObjectMeta as meta_record};
ghost use Rattle.kube_meta.specs.declared.metadata.OwnerReference.{OwnerReference as owner_record};
ghost use Rattle.kube_text.specs.Fields.{meta_members, owner_members};
ghost use Rattle.kube_text.specs.Shown.{ShowsMembers, ShowsFront, array_of, member_if as data_member_if};

use crate::show::{Show, member, member_if};
use json::Writer;
use kube_meta::{List, ObjectMeta, OwnerReference, TextMap};
use std::alloc::{AllocError, Global};

impl Show for i64 {
    ghost Seen = { ℤ };

    ghost seen = { λ z. z };

    ghost data_of = { λ z. number_data (of_integer z) };

    #[tactic(auto, using(crate::proofs::Numbers::integer_text), unfolding(crate::specs::Shown::tokens_of))]
    fn show(&self, _alloc: Global, out: &mut Writer) -> Result<(), AllocError> {
        out.i64(*self)?;
        Ok(())
    }
}

/// Texts under their names.
impl Show for TextMap {
    ghost Seen = { List (List ℕ × List ℕ) };

    ghost seen = { λ m. m };

    ghost data_of = { texts_data };

    #[tactic(auto, unfolding(crate::specs::Shown::tokens_of, crate::specs::Shown::member_tokens))]
    fn show(&self, alloc: Global, out: &mut Writer) -> Result<(), AllocError> {
        out.begin_object()?;
        for (name, text) in self.as_map().iter() {
            out.key(name.as_str())?;
            text.show(alloc, out)?;
        }
        out.end_object()?;
        Ok(())
    }
}

impl Show for OwnerReference {
    ghost Seen = { owner_record };

    ghost seen = { λ o. o };

    ghost data_of = { owner_data };

    fn show(&self, alloc: Global, out: &mut Writer) -> Result<(), AllocError> {
        out.begin_object()?;
        show_owner(alloc, out, self)?;
        out.end_object()?;
        Ok(())
    }
}

fn show_owner(alloc: Global, out: &mut Writer, owner: &OwnerReference) -> Result<(), AllocError>
    ensures before { out.new.before ≡ out.old.before }
    ensures members { ShowsMembers result out.old out.new (owner_members owner.now) }
    ensures front { ShowsFront result out.old out.new (owner_members owner.now) }
{
    member(alloc, out, "apiVersion", &owner.api_version)?;
    member(alloc, out, "kind", &owner.kind)?;
    member(alloc, out, "name", &owner.name)?;
    member(alloc, out, "uid", &owner.uid)?;
    Ok(())
}

/// What is absent, and an empty list or map, is left out.
impl Show for ObjectMeta {
    ghost Seen = { meta_record };

    ghost seen = { λ m. m };

    ghost data_of = { meta_data };

    fn show(&self, alloc: Global, out: &mut Writer) -> Result<(), AllocError> {
        out.begin_object()?;
        show_members(alloc, out, self)?;
        out.end_object()?;
        Ok(())
    }
}

/// The members of metadata, by the bytes of their names.
fn show_members(alloc: Global, out: &mut Writer, meta: &ObjectMeta) -> Result<(), AllocError>
    ensures before { out.new.before ≡ out.old.before }
    ensures members { ShowsMembers result out.old out.new (meta_members meta.now) }
    ensures front { ShowsFront result out.old out.new (meta_members meta.now) }
{
    full_texts(alloc, out, "annotations", &meta.annotations)?;
    member_if(alloc, out, "deletionTimestamp", &meta.deletion_timestamp)?;
    full_list(alloc, out, "finalizers", &meta.finalizers)?;
    member_if(alloc, out, "generation", &meta.generation)?;
    full_texts(alloc, out, "labels", &meta.labels)?;
    member_if(alloc, out, "name", &meta.name)?;
    member_if(alloc, out, "namespace", &meta.namespace)?;
    full_list(alloc, out, "ownerReferences", &meta.owner_references)?;
    member_if(alloc, out, "resourceVersion", &meta.resource_version)?;
    member_if(alloc, out, "uid", &meta.uid)?;
    Ok(())
}

/// Texts under their names, unless there are none.
fn full_texts(
    alloc: Global,
    out: &mut Writer,
    name: &str,
    texts: &Option<TextMap>,
) -> Result<(), AllocError>
    ensures before { out.new.before ≡ out.old.before }
    ensures members { ShowsMembers result out.old out.new (data_member_if name.now (option_map texts_data (unless_empty texts.now))) }
    ensures front { ShowsFront result out.old out.new (data_member_if name.now (option_map texts_data (unless_empty texts.now))) }
{
    match texts {
        Some(texts) if !texts.is_empty() => {
            member(alloc, out, name, texts)?;
            Ok(())
        }
        _ => Ok(()),
    }
}

/// A list, unless it is empty.
fn full_list<T: Show + Drop>(
    alloc: Global,
    out: &mut Writer,
    name: &str,
    items: &Option<List<T>>,
) -> Result<(), AllocError>
    ensures before { out.new.before ≡ out.old.before }
    ensures members { ShowsMembers result out.old out.new (data_member_if name.now (option_map (λ xs. array_of T.data_of (map T.seen xs)) (unless_empty items.now))) }
    ensures front { ShowsFront result out.old out.new (data_member_if name.now (option_map (λ xs. array_of T.data_of (map T.seen xs)) (unless_empty items.now))) }
{
    match items {
        Some(items) if !items.is_empty() => {
            member(alloc, out, name, items)?;
            Ok(())
        }
        _ => Ok(()),
    }
}
