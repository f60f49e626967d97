//! Results apart from errors.

ghost use Rattle.std.specs.Prelude.{◌≡◌, IfOk};
ghost use Rattle.kube_streams.specs.Splits.{errors_of, items_of};

use kube_meta::NoMemory;
use std::alloc::Global;

/// What is ok, and what is an error, each in order (for kube-runtime's `trystream_split_result`).
///
/// Errors: `NoMemory`.
pub fn split_result<T: Drop, E: Drop>(
    alloc: Global,
    items: Vec<Result<T, E>>,
) -> Result<(Vec<T>, Vec<E>), NoMemory>
    ensures items { IfOk result (λ p. p.0.items ≡ items_of items.items) }
    ensures errors { IfOk result (λ p. p.1.items ≡ errors_of items.items) }
{
    let mut oks = Vec::new(alloc);
    let mut errors = Vec::new(alloc);
    for item in items {
        match item {
            Ok(item) => oks.push(item)?,
            Err(error) => errors.push(error)?,
        }
    }
    Ok((oks, errors))
}
