//! Calls to a source of objects, and their answers, as a trace has them.

use crate::error::{ApiError, Status};
use kube_meta::Text;

/// A call to a source (Kubernetes API concepts "list" and "watch").
#[derive(Debug, Drop)]
pub enum Call {
    /// A page of a list: the first, or the one that a token continues.
    List { token: Option<Text> },
    /// A watch from a version. An initial one sends the objects that are there first.
    Watch { version: Text, initial: bool },
    /// The next event of the open watch.
    Next,
    /// The next item of a stream.
    Stream,
}

/// What a call was answered.
///
/// An empty token or version of a page and an empty version of an item stand here as none.
#[derive(Debug, Drop)]
pub enum Answer {
    Page {
        token: Option<Text>,
        version: Option<Text>,
    },
    /// The watch is open.
    Opened,
    Added {
        version: Option<Text>,
    },
    Modified {
        version: Option<Text>,
    },
    Deleted {
        version: Option<Text>,
    },
    /// The version reached. The ending one of an initial watch says that all objects came.
    Bookmark {
        version: Text,
        ending: bool,
    },
    /// The watch told of an error.
    ErrorItem(Status),
    /// The call failed.
    Fault(ApiError),
    /// The watch or the stream is over.
    End,
    NotReady,
    /// The watch was silent for longer than its window.
    Idle,
    /// An item of a stream, which is an object, a request or an error.
    Item,
    /// The stream gave nothing within its fuel.
    Spent,
}
