//! The API that a controller lists and watches, and one in memory that answers by a script.
#![tactic(auto)]

pub mod api;
mod change;
pub mod copies;
pub mod event;
pub mod object_api;
mod open_watch;
pub mod patch;
mod place;
mod pointer;
mod recording;
pub mod result_page;
pub mod sequence;
pub mod test_mode;

pub use api::ApiMode;
pub use event::{Bookmark, Page, WatchEvent};
pub use kube_model::error::{ApiError, Status};
pub use kube_model::params::{ListParams, VersionMatch, WatchParams};
pub use object_api::{DeleteAnswer, ObjectApi, PatchAnswer};
pub use patch::{Patch, PatchRefusal, apply_patch};
pub use recording::Recording;
pub use result_page::ResultPage;
pub use sequence::{Sequence, SequenceStep};
pub use test_mode::TestMode;
