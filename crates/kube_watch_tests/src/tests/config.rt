//! Configurations.

use kube_meta::{Expression, Selector, Text};
use kube_watch::Config;
use std::alloc::Global;
use std::panic::Expect;
use std::process::Abort;
use std::test::Fail;

fn shown(rt: &impl Abort, alloc: Global, config: &Config) -> String {
    format!(in alloc; "{config:?}").expect(rt, "memory")
}

/// How the copy of a configuration is shown that ends with it.
fn shown_copy(rt: &impl Abort, alloc: Global, config: Config) -> String {
    let copy = config.copy(alloc).expect(rt, "memory");
    shown(rt, alloc, &copy)
}

fn set_one_by_one(rt: &impl Abort, alloc: Global) -> Config {
    Config::default()
        .timeout(30)
        .fields(alloc, "metadata.name=a")
        .expect(rt, "memory")
        .labels(alloc, "app=b")
        .expect(rt, "memory")
        .page_size(7)
        .disable_bookmarks()
        .any_semantic()
        .streaming_lists()
}

#[test]
fn settings_are_made_one_by_one(rt: HostRuntime) -> Result<(), Fail> {
    let alloc = rt.alloc();
    let shown = shown_copy(&rt, alloc, set_one_by_one(&rt, alloc));
    let wanted =
        "Config { label_selector: Some(\"app=b\"), field_selector: Some(\"metadata.name=a\"), timeout: Some(30), list_semantic: Any, initial_list_strategy: StreamingList, page_size: Some(7), bookmarks: false }";
    assert_eq!(rt; shown.as_str(), wanted);
    Ok(())
}

/// What has a label `app` and none `canary`.
fn stable(rt: &impl Abort, alloc: Global) -> Selector {
    let app = Text::new(alloc, "app").expect(rt, "memory");
    let canary = Text::new(alloc, "canary").expect(rt, "memory");
    let mut selector = Selector::new(alloc);
    selector.push(Expression::Exists(app)).expect(rt, "memory");
    selector
        .push(Expression::DoesNotExist(canary))
        .expect(rt, "memory");
    selector
}

fn with_labels(rt: &impl Abort, alloc: Global) -> Config {
    let stable = stable(rt, alloc);
    Config::default()
        .labels_from(alloc, &stable)
        .expect(rt, "memory")
}

#[test]
fn a_selector_gives_its_text(rt: HostRuntime) -> Result<(), Fail> {
    let alloc = rt.alloc();
    let shown = shown_copy(&rt, alloc, with_labels(&rt, alloc));
    let wanted =
        "Config { label_selector: Some(\"app,!canary\"), field_selector: None, timeout: None, list_semantic: MostRecent, initial_list_strategy: ListWatch, page_size: Some(500), bookmarks: true }";
    assert_eq!(rt; shown.as_str(), wanted);
    Ok(())
}
