//! Parameters of list and watch calls (`kube::api::{ListParams, WatchParams}`).

use kube_meta::Text;

/// How the version of a list call is meant (Kubernetes API concept "resourceVersionMatch").
#[derive(Clone, Copy, Debug, PartialEq, Eq)]
pub enum VersionMatch {
    NotOlderThan,
    Exact,
}

/// What a list call asks for.
#[derive(Debug, Drop)]
pub struct ListParams {
    pub label_selector: Option<Text>,
    pub field_selector: Option<Text>,
    /// At most so many objects in one page.
    pub limit: Option<u32>,
    /// Which page: none for the first one.
    pub continue_token: Option<Text>,
    pub resource_version: Option<Text>,
    pub version_match: Option<VersionMatch>,
}

/// What a watch call asks for.
#[derive(Debug, Drop)]
pub struct WatchParams {
    pub label_selector: Option<Text>,
    pub field_selector: Option<Text>,
    /// After how many seconds the server ends the watch.
    pub timeout: Option<u32>,
    /// Whether the server is to send bookmarks.
    pub bookmarks: bool,
    /// Whether the objects that are there are to be sent first.
    pub send_initial_events: bool,
}
