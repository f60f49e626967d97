//! Values that a writer shows as JSON.

ghost use Rattle.std.specs.Prelude.{◌≡◌, ℕ, Bool, List, Option, ◌++◌, OnOk, OnErr, map, option_map};
ghost use Rattle.std.specs.Arc.{arc_value};
ghost use Rattle.json.specs.Written.{WritesFront};
ghost use Rattle.serde_json.specs.Data.{Data, boolean, number, unsigned, string as string_data, member as data_member};
ghost use Rattle.kube_text.specs.Shown.{tokens_of, item_tokens, or_null, array_of, member_if as data_member_if, ShowsMembers, ShowsFront};

use json::Writer;
use kube_meta::{List, Text};
use std::alloc::{AllocError, Global};
use std::sync::Arc;

/// What is shown as JSON.
pub trait Show {
    /// What is shown, as plain data.
    ghost Seen: { Type 0 };

    ghost seen: { Self → Seen };

    /// How it is shown.
    ghost data_of: { Seen → Data };

    /// Writes it as JSON (RFC 8259).
    ///
    /// Errors: `AllocError`. What the writer held stays, and the first tokens may stand behind it.
    fn show(&self, alloc: Global, out: &mut Writer) -> Result<(), AllocError>
        ensures before { out.new.before ≡ out.old.before }
        ensures tokens { OnOk result (out.new.tokens ≡ out.old.tokens ++ tokens_of (data_of (seen self.now))) }
        ensures front { OnErr result (WritesFront out.old.tokens out.new.tokens (tokens_of (data_of (seen self.now)))) };
}

impl Show for u64 {
    ghost Seen = { ℕ };

    ghost seen = { λ n. n };

    ghost data_of = { λ n. number (unsigned n) };

    #[tactic(auto, unfolding(crate::specs::Shown::tokens_of))]
    fn show(&self, _alloc: Global, out: &mut Writer) -> Result<(), AllocError> {
        out.u64(*self)
    }
}

impl Show for u32 {
    ghost Seen = { ℕ };

    ghost seen = { λ n. n };

    ghost data_of = { λ n. number (unsigned n) };

    #[tactic(auto, unfolding(crate::specs::Shown::tokens_of))]
    fn show(&self, _alloc: Global, out: &mut Writer) -> Result<(), AllocError> {
        out.u64(u64::from(*self))
    }
}

impl Show for u16 {
    ghost Seen = { ℕ };

    ghost seen = { λ n. n };

    ghost data_of = { λ n. number (unsigned n) };

    #[tactic(auto, unfolding(crate::specs::Shown::tokens_of))]
    fn show(&self, _alloc: Global, out: &mut Writer) -> Result<(), AllocError> {
        out.u64(u64::from(*self))
    }
}

impl Show for bool {
    ghost Seen = { Bool };

    ghost seen = { λ b. b };

    ghost data_of = { boolean };

    #[tactic(auto, unfolding(crate::specs::Shown::tokens_of))]
    fn show(&self, _alloc: Global, out: &mut Writer) -> Result<(), AllocError> {
        out.boolean(*self)
    }
}

impl Show for Text {
    ghost Seen = { List ℕ };

    ghost seen = { λ t. t };

    ghost data_of = { string_data };

    #[tactic(auto, unfolding(crate::specs::Shown::tokens_of))]
    fn show(&self, _alloc: Global, out: &mut Writer) -> Result<(), AllocError> {
        out.string(self.as_str())
    }
}

impl<T: Show> Show for Option<T> {
    ghost Seen = { Option T.Seen };

    ghost seen = { option_map T.seen };

    ghost data_of = { λ o. or_null (option_map T.data_of o) };

    #[tactic(auto, unfolding(crate::specs::Shown::tokens_of))]
    fn show(&self, alloc: Global, out: &mut Writer) -> Result<(), AllocError> {
        match self {
            None => out.null(),
            Some(value) => value.show(alloc, out),
        }
    }
}

impl<T: Show> Show for Arc<T> {
    ghost Seen = { T.Seen };

    ghost seen = { λ a. T.seen (arc_value a) };

    ghost data_of = { T.data_of };

    fn show(&self, alloc: Global, out: &mut Writer) -> Result<(), AllocError> {
        (**self).show(alloc, out)
    }
}

impl<T: Show + Drop> Show for List<T> {
    ghost Seen = { List T.Seen };

    ghost seen = { map T.seen };

    ghost data_of = { array_of T.data_of };

    #[tactic(auto, unfolding(crate::specs::Shown::tokens_of, crate::specs::Shown::item_tokens))]
    fn show(&self, alloc: Global, out: &mut Writer) -> Result<(), AllocError> {
        out.begin_array()?;
        for value in self.as_slice() {
            value.show(alloc, out)?;
        }
        out.end_array()?;
        Ok(())
    }
}

/// A member of an object.
///
/// Errors: `AllocError`. What the writer held stays, and the first tokens of the member may stand behind it.
#[tactic(auto, using(crate::proofs::Shown::member_shown))]
pub fn member<T: Show>(
    alloc: Global,
    out: &mut Writer,
    name: &str,
    value: &T,
) -> Result<(), AllocError>
    ensures before { out.new.before ≡ out.old.before }
    ensures members { ShowsMembers result out.old out.new (data_member name.now (T.data_of (T.seen value.now))) }
    ensures front { ShowsFront result out.old out.new (data_member name.now (T.data_of (T.seen value.now))) }
{
    out.key(name)?;
    value.show(alloc, out)?;
    Ok(())
}

/// A member of an object, where it is there.
///
/// Errors: those of [`member`].
pub fn member_if<T: Show>(
    alloc: Global,
    out: &mut Writer,
    name: &str,
    value: &Option<T>,
) -> Result<(), AllocError>
    ensures before { out.new.before ≡ out.old.before }
    ensures members { ShowsMembers result out.old out.new (data_member_if name.now (option_map T.data_of (option_map T.seen value.now))) }
    ensures front { ShowsFront result out.old out.new (data_member_if name.now (option_map T.data_of (option_map T.seen value.now))) }
{
    match value {
        None => Ok(()),
        Some(value) => {
            member(alloc, out, name, value)?;
            Ok(())
        }
    }
}

/// A member of an object whose value is a text.
///
/// Errors: those of [`member`].
#[tactic(auto, using(crate::proofs::Shown::member_shown), unfolding(crate::specs::Shown::tokens_of))]
pub fn text_member(out: &mut Writer, name: &str, text: &str) -> Result<(), AllocError>
    ensures before { out.new.before ≡ out.old.before }
    ensures members { ShowsMembers result out.old out.new (data_member name.now (string_data text.now)) }
    ensures front { ShowsFront result out.old out.new (data_member name.now (string_data text.now)) }
{
    out.key(name)?;
    out.string(text)?;
    Ok(())
}
