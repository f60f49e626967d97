//! The small types.

use super::insert;
use kube_meta::{List, Text, TextMap};
use std::alloc::Global;
use std::panic::Expect;
use std::process::Abort;

/// A list that holds 3 and 5.
fn two(rt: &impl Abort, alloc: Global) -> List<i32> {
    let mut list = List::new(alloc);
    list.push(3).expect(rt, "memory");
    list.push(5).expect(rt, "memory");
    list
}

/// Whether that list holds them, and the vector that it becomes too.
fn lists_hold(rt: &impl Abort, alloc: Global) -> bool {
    let list = two(rt, alloc);
    let holds = list.as_slice() == [3, 5].as_slice();
    let vec: Vec<i32> = list.into();
    holds && vec.as_slice() == [3, 5].as_slice()
}

/// Whether a text is equal to its copy, and the string that it becomes is what was given.
fn texts_hold(rt: &impl Abort, alloc: Global, given: &str) -> bool {
    let text = Text::from(String::from_str(alloc, given).expect(rt, "memory"));
    let copy = text.copy(alloc).expect(rt, "memory");
    let is_equal = text == copy;
    let string: String = copy.into();
    is_equal && string.as_str() == given
}

/// Texts under `a` and `b`, of which the second was put twice.
fn texts(rt: &impl Abort, alloc: Global) -> TextMap {
    let mut map = TextMap::new(alloc);
    insert(rt, alloc, &mut map, "b", "1");
    insert(rt, alloc, &mut map, "a", "2");
    insert(rt, alloc, &mut map, "b", "3");
    map.copy().expect(rt, "memory")
}

/// Whether that map has two keys, the text `3` under `b`, and none under `c`.
fn maps_hold(rt: &impl Abort, alloc: Global) -> bool {
    let map = texts(rt, alloc);
    map.as_map().len() == 2
        && map.get("b").map_or(false, |text| text.as_str() == "3")
        && map.get("c").is_none()
}

#[test]
fn small_types_hold_what_they_are_given(rt: HostRuntime) {
    let alloc = rt.alloc();
    assert!(rt; lists_hold(&rt, alloc));
    assert!(rt; texts_hold(&rt, alloc, "ab"));
    assert!(rt; maps_hold(&rt, alloc));
}
