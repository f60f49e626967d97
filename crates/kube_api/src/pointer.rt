//! JSON Pointers (RFC 6901) into values.

ghost use Rattle.std.specs.Prelude.{◌≡◌, ◌≤◌, ◌==◌, ◌∷◌, ◌++◌, length, IfOk, map, option_map, slice_index};
ghost use Rattle.serde_json.specs.Find.{index_of, unescape};
ghost use Rattle.serde_json.specs.View.{view};
ghost use Rattle.kube_api.specs.Patches.{cut, parts_of, part_of, found_by};

use fast_float::Numeral;
use kube_meta::{List, NoMemory, Text};
use serde_json::Value;
use std::alloc::Global;

/// The names that a pointer goes through; none where it doesn't begin with `/` and isn't empty.
///
/// Errors: `NoMemory`.
pub(crate) fn parts(alloc: Global, path: &str) -> Result<Option<List<Text>>, NoMemory>
    ensures { IfOk result (λ p. p ≡ parts_of path.now) }
{
    if path.is_empty() {
        return Ok(Some(List::new(alloc)));
    }
    match path.strip_prefix('/') {
        Some(rest) => Ok(Some(cut_parts(alloc, rest)?)),
        None => Ok(None),
    }
}

fn cut_parts(alloc: Global, path: &str) -> Result<List<Text>, NoMemory>
    ensures { IfOk result (λ p. p ≡ map unescape (cut path.now)) }
{
    let mut parts = List::new(alloc);
    let mut rest = path;
    'parts: while let Some((part, more)) = rest.split_once('/') {
        parts.push(unescaped(alloc, part)?)?;
        rest = more;
    }
    parts.push(unescaped(alloc, rest)?)?;
    Ok(parts)
}

fn unescaped(alloc: Global, part: &str) -> Result<Text, NoMemory>
    ensures { IfOk result (λ t. t ≡ unescape part.now) }
{
    let mut name = String::new(alloc);
    let mut rest = part;
    'escapes: while let Some((before, after)) = rest.split_once('~') {
        let (meant, more) = escape(after);
        name.push_str(before)?;
        name.push_str(meant)?;
        rest = more;
    }
    name.push_str(rest)?;
    Ok(Text::from(name))
}

/// What an escape stands for, of which `~` was read, and what follows it.
fn escape(after: &str) -> (&str, &str)
    ensures meaning { unescape (126 ∷ after.now) ≡ result.0.now ++ unescape result.1.now }
    ensures rest { length result.1.now ≤ length after.now }
{
    if let Some(more) = after.strip_prefix('0') {
        return ("~", more);
    }
    match after.strip_prefix('1') {
        Some(more) => ("/", more),
        None => ("~", after),
    }
}

/// The index that a name is, in decimal without a leading zero.
pub(crate) fn index(name: &str) -> Option<usize>
    ensures { result ≡ index_of name.now }
{
    let bytes = name.as_bytes();
    let numeral = Numeral::scan(bytes);
    let index = numeral.to_u64()?;
    if numeral.len() == bytes.len() && (bytes.len() == 1 || !starts_with_zero(bytes)) {
        Some(index as usize)
    } else {
        None
    }
}

fn starts_with_zero(bytes: &[u8]) -> bool
    ensures { result ≡ (slice_index bytes.now 0 == 48) }
{
    !bytes.is_empty() && bytes[0] == b'0'
}

/// What a value has at the end of the names.
pub(crate) fn find<'v>(value: &'v Value, names: &[Text]) -> Option<&'v Value>
    ensures { option_map (λ v. view v.now) result ≡ found_by names.now (view value.now) }
{
    let mut found = value;
    for name in names {
        found = part(found, name.as_str())?;
    }
    Some(found)
}

fn part<'v>(value: &'v Value, name: &str) -> Option<&'v Value>
    ensures { option_map (λ v. view v.now) result ≡ part_of name.now (view value.now) }
{
    match value {
        Value::Object(_) => value.get(name),
        Value::Array(_) => value.get(index(name)?),
        _ => None,
    }
}
