//! Selectors, shown and matched.

use super::{insert, text};
use kube_meta::{Expression, Selector, TextMap, TextSet};
use std::alloc::Global;
use std::panic::Expect;
use std::process::Abort;

/// The set of two texts.
fn both(rt: &impl Abort, alloc: Global, a: &str, b: &str) -> TextSet {
    let mut set = TextSet::new(alloc);
    set.insert(alloc, a).expect(rt, "memory");
    set.insert(alloc, b).expect(rt, "memory");
    set.copy().expect(rt, "memory")
}

/// The label `env` of this value, and `y` where it is wanted.
fn labels(rt: &impl Abort, alloc: Global, env: &str, y: Option<&str>) -> TextMap {
    let mut labels = TextMap::new(alloc);
    insert(rt, alloc, &mut labels, "env", env);
    if let Some(y) = y {
        insert(rt, alloc, &mut labels, "y", y);
    }
    labels
}

fn shown(rt: &impl Abort, alloc: Global, selector: &Selector) -> String {
    format!(in alloc; "{selector}").expect(rt, "memory")
}

/// A selector is shown so.
fn is_shown(rt: &impl Abort, alloc: Global, selector: &Selector, wanted: &str) {
    let shown = shown(rt, alloc, selector);
    assert_eq!(rt; shown.as_str(), wanted);
}

/// Whether a selector holds of these labels.
fn matches(
    rt: &impl Abort,
    alloc: Global,
    selector: &Selector,
    env: &str,
    y: Option<&str>,
) -> bool {
    let labels = labels(rt, alloc, env, y);
    selector.matches(&labels)
}

/// One of `a` and `b` as `env`, no `1` as `x`, and no `y`.
fn three(rt: &impl Abort, alloc: Global) -> Selector {
    let mut selector = Selector::new(alloc);
    let env = Expression::In(text(rt, alloc, "env"), both(rt, alloc, "b", "a"));
    selector.push(env).expect(rt, "memory");
    let x = Expression::NotEqual(text(rt, alloc, "x"), text(rt, alloc, "1"));
    selector.push(x).expect(rt, "memory");
    let y = Expression::DoesNotExist(text(rt, alloc, "y"));
    selector.push(y).expect(rt, "memory");
    selector
}

#[test]
fn three_expressions(rt: HostRuntime) {
    let alloc = rt.alloc();
    let three = three(&rt, alloc);
    assert!(rt; matches(&rt, alloc, &three, "a", None));
    assert!(rt; !matches(&rt, alloc, &three, "a", Some("1")));
    is_shown(&rt, alloc, &three, "env in (a,b),x!=1,!y");
}
