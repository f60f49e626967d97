//! What a server says of calls that fail.

ghost use Rattle.std.specs.Prelude.{◌≡◌, IfOk, codes};
ghost use Rattle.kube_model.specs.declared.error.ApiError.TheVariants.{Transport};
ghost use Rattle.kube_server.specs.Connections.{expired as expired_status};

use kube_api::{ApiError, Status};
use kube_meta::{NoMemory, Text};
use std::alloc::Global;

/// A revision is gone, or never was (Kubernetes API concept "410 Gone responses").
///
/// Errors: `NoMemory`.
pub(crate) fn expired(alloc: Global) -> Result<Status, NoMemory>
    ensures { IfOk result (λ s. s ≡ expired_status) }
{
    Ok(Status {
        code: 410,
        reason: Text::new(alloc, "Expired")?,
        message: Text::new(alloc, "too old resource version")?,
        uid: None,
    })
}

/// A selector that the server doesn't support.
///
/// Errors: `NoMemory`.
pub(crate) fn unsupported(alloc: Global) -> Result<ApiError, NoMemory>
    ensures { IfOk result (λ e. e ≡ Transport (codes "selector not supported")) }
{
    Ok(ApiError::Transport(Text::new(alloc, "selector not supported")?))
}
