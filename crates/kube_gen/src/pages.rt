//! The pages of a generated input.

ghost use Rattle.std.specs.Prelude.{◌≡◌, ◌<◌, ◌+◌, ◌*◌, ◌^◌, IfOk, map, Ok};
ghost use Rattle.std.specs.List.{range_with_len};
ghost use Rattle.std.specs.Arc.{arc_value};
ghost use Rattle.kube_meta.specs.declared.poll.Polled.TheVariants.{Ready};
ghost use Rattle.kube_api.specs.Answers.{list_answer};
ghost use Rattle.kube_gen.specs.Generated.{object_at, token_at, page_at, pages_of};

use crate::objects::{Whose, listed};
use kube_api::Page;
use kube_meta::{List, NoMemory, Text};
use kube_object::ScriptObject;
use kube_script::source::Listed;
use std::alloc::Global;
use std::sync::Arc;

/// So many objects, from a number on.
fn objects(
    alloc: Global,
    whose: Whose,
    start: u32,
    len: u32,
) -> Result<Vec<Arc<ScriptObject>>, NoMemory>
    requires { start + len < 2 ^ 32 }
    ensures { IfOk result (λ v. map arc_value v.items ≡ map (object_at whose) (range_with_len start len)) }
{
    let mut objects = Vec::new(alloc);
    for place in 0..len {
        objects.push(listed(alloc, whose, start + place)?)?;
    }
    Ok(objects)
}

/// The token of the page of a number, with which the list goes on.
fn token(alloc: Global, number: u32) -> Result<Text, NoMemory>
    requires { number + 1 < 2 ^ 32 }
    ensures { IfOk result (λ t. t ≡ token_at number) }
{
    let next = number + 1;
    Ok(Text::from(format!(in alloc; "t{next}")?))
}

/// The page of a number of so many objects. The last one has their count as version, the others a token.
fn page(
    alloc: Global,
    whose: Whose,
    count: u32,
    number: u32,
) -> Result<Page<ScriptObject>, NoMemory>
    requires { number * 500 < count }
    ensures { IfOk result (λ p. list_answer (Ready (Ok p)) ≡ page_at whose count number) }
{
    let start = number * 500;
    let left = count - start;
    if left > 500 {
        return Ok(Page {
            items: List::from(objects(alloc, whose, start, 500)?),
            token: Some(token(alloc, number)?),
            version: None,
        });
    }
    Ok(Page {
        items: List::from(objects(alloc, whose, start, left)?),
        token: None,
        version: Some(Text::from(format!(in alloc; "{count}")?)),
    })
}

/// All pages of so many objects, 500 each.
///
/// # Errors
///
/// `NoMemory` where memory could not be had.
pub fn pages(alloc: Global, whose: Whose, count: u32) -> Result<Vec<Listed>, NoMemory>
    ensures { IfOk result (λ v. map (λ p. list_answer (Ready p)) v.items ≡ pages_of whose count) }
{
    let mut pages = Vec::new(alloc);
    for number in 0..count.div_ceil(500) {
        pages.push(Ok(page(alloc, whose, count, number)?))?;
    }
    Ok(pages)
}
