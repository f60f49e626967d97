//! Scripts, and what is told of them.

use kube_hints::hints;
use std::alloc::Global;
use std::panic::Expect;
use std::process::Abort;

/// Scripts, each behind `# `, in which `K` stands for a type and `R` for an empty source, and the lines that are told of each.
const TOLD: &str = r##"# {"kind":K,"root":R,"turns":[{"at":0}]}
# {"kind":K,"root":R,"turn":[]}
not read: /turn
# {"kind":K,"root":R,"turns":[{"at":0,"finishes":[{"ref":{"name":"a"},"error":"x"}]}]}
not read: /turns/0/finishes/0/error
# {"kind":K,"root":R,"turns":[{"at":0,"on":[{"nam":"a"}]}]}
missing: /turns/0/on/0/name, a text
not read: /turns/0/on/0/nam
# {"kind":K,"root":R,"turns":[{"att":0}]}
missing: /turns/0/at, a whole number, 0 to 9223372036854775807
not read: /turns/0/att
# {"kind":K,"root":R,"turns":[{"at":"0"}]}
at /turns/0/at: expected a whole number, 0 to 9223372036854775807
# {"kind":K,"root":R,"turns":[{"at":0,"shutdown":"now"}]}
at /turns/0/shutdown: expected "no", "graceful" or "forced"
# {"root":R}
missing: /kind, an object with the texts group, version, kind and plural
# {"kind":K}
missing: /root, an object with lists and watches
# []
at : expected an object with kind and root
# {"kind":{"group":"","version":"v1","kind":"A","plurals":"as"},"root":R}
missing: /kind/plural, a text
not read: /kind/plurals
# {"kind":K,"root":{"list":[],"watches":[[{"events":[{"type":"ADDED","objects":1}]}]]}}
missing: /root/watches/0/0/events/0/object, an object
not read: /root/list
not read: /root/watches/0/0/events/0/objects
# {"kind":K,"root":{"watches":[[{"waits":1,"events":[]}]]}}
not read: /root/watches/0/0/waits
# {"kind":K,"root":{"lists":[{"item":[],"metadata":{"resourceversion":"1"}}]}}
not read: /root/lists/0/item
not read: /root/lists/0/metadata/resourceversion
# {"kind":K,"root":{"lists":[{"items":[{"metadata":{"name":"a","labels":[]}}]}]}}
at /root/lists/0/items/0/metadata/labels: expected an object whose members are texts
# {"kind":K,"root":{"lists":[{"items":[{"spec":{"size":1.5},"anything":{"goes":1}}]}]}}
at /root/lists/0/items/0/spec/size: expected a whole number of 64 bits
# {"kind":K,"root":R,"related":[{"kind":K,"map":"owner","watchers":{}}]}
at /related/0/map: expected "owners", or an object with label
not read: /related/0/watchers
# {"kind":K,"root":R,"related":[{"map":"owners"}]}
missing: /related/0/kind, an object with the texts group, version, kind and plural
# {"kind":K,"root":R,"config":{"debounce":1,"limit":3},"backoff":{"min":1,"num":1,"den":0,"cap":1,"max":1}}
at /backoff/den: expected a whole number, 1 to 18446744073709551615
not read: /config/limit
not read: /backoff/max
# {"kind":K,"root":R,"a/b":1,"c~d":2}
not read: /a~1b
not read: /c~0d
# {"kind":K,"root":R,"1":1,"2":1,"3":1,"4":1,"5":1,"6":1,"7":1,"8":1,"9":1,"a":1,"b":1,"c":1,"d":1,"e":1,"f":1,"g":1,"h":1,"i":1,"j":1,"k":1,"l":1,"m":1}
not read: /1
not read: /2
not read: /3
not read: /4
not read: /5
not read: /6
not read: /7
not read: /8
not read: /9
not read: /a
not read: /b
not read: /c
not read: /d
not read: /e
not read: /f
not read: /g
not read: /h
not read: /i
not read: /j
not read: /k
not read: 2 more
# {"kind":K,"root":R,}
no JSON: invalid JSON at line 1 column 111
"##;

const KIND: &str = r#"{"group":"","version":"v1","kind":"ConfigMap","plural":"configmaps"}"#;

const EMPTY: &str = r#"{"lists":[],"watches":[]}"#;

/// A script with its type and its source written out.
fn written(rt: &impl Abort, alloc: Global, script: &str) -> String {
    let mut text = String::new(alloc);
    for c in script.chars() {
        match c {
            'K' => text.push_str(KIND).expect(rt, "memory"),
            'R' => text.push_str(EMPTY).expect(rt, "memory"),
            _ => text.push(c).expect(rt, "memory"),
        }
    }
    text
}

/// What is told of a script.
fn told(rt: &impl Abort, alloc: Global, script: &str) -> String {
    let script = written(rt, alloc, script);
    let mut text = String::new(alloc);
    for line in &hints(alloc, script.as_bytes()).expect(rt, "memory") {
        text.push_str(line.as_str()).expect(rt, "memory");
        text.push_str("\n").expect(rt, "memory");
    }
    text
}

/// The lines of a row are told of its script.
fn tells(rt: &impl Abort, alloc: Global, row: &str) {
    let (script, wanted) = row.split_once('\n').unwrap_or(("", ""));
    let told = told(rt, alloc, script);
    assert_eq!(rt; told.as_str(), wanted);
}

#[test]
fn mistyped_scripts_are_told_of(rt: HostRuntime) {
    for row in TOLD.split("# ").skip(1) {
        tells(&rt, rt.alloc(), row);
    }
}
