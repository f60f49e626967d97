//! Laws of the definitions: each is the contract of a function that does nothing.
//!
//! `V` is any type of objects, `meta` says what their metadata are, and `selects` which of them selectors select.

ghost use Rattle.std.specs.Prelude.{◌≡◌, ◌≤◌, ◌<◌, ◌^◌, ◌⊎◌, ◌++◌, ◌∷◌, [], ℕ, Bool, true, false, List, Option, Some, None, IsPermutation, fold, length, map};
ghost use Rattle.std.specs.List.Sorted.{IsStrictlySortedBy};
ghost use Rattle.kube_meta.specs.declared.dynamic.DynamicObject.{DynamicObject};
ghost use Rattle.kube_meta.specs.declared.metadata.ObjectMeta.{ObjectMeta};
ghost use Rattle.kube_meta.specs.Reading.{unless_empty};
ghost use Rattle.kube_meta.specs.Reading.{ObjectData};
ghost use Rattle.kube_model.specs.Raw.{Raw, RawAnswer, Waits};
ghost use Rattle.kube_api.specs.ObjectTalk.{ObjectRaw};
ghost use Rattle.kube_server.specs.History.{Change, Key, key_cmp, same_key, changed, object_at, found_after, state_of, state_at, IsNextChange, IsHistory, IsLater};
ghost use Rattle.kube_server.specs.Servers.{ServerState, data_meta, held_under, IsStep};
ghost use Rattle.kube_server.specs.ObjectCalls.{IsObjectMove};
ghost use Rattle.kube_server.specs.Honest.{Selection, ListTold, list_told, WatchTold, watch_told, selected_between, Follow, FollowsVersion, IsWholeList, IsHonest};
ghost use Rattle.kube_server.specs.Connections.{Act, acted, after_next, fresh, polled, selected_by};
ghost use Rattle.kube_server.specs.Readers.{IsTold, GoesOnFrom, IsByKey, BringsTo, TellBetween, TellsAfter, TellsSome, TellsAll, IsToldAll, AreState, objects_told, selected_state};

/// Whatever is asked of a connection, and whenever its log grows, what it told is honest to the log that it holds.
pub fn talks_are_honest()
    ensures { (meta : DynamicObject → ObjectMeta) (changes : List (Change DynamicObject)) (compacted : ℕ) (acts : List (Act DynamicObject))
        → length (fold (acted meta) (fresh changes compacted) acts).changes < 2 ^ 64
        → IsHonest meta (selected_by meta) (fold (acted meta) (fresh changes compacted) acts).changes
        (fold (acted meta) (fresh changes compacted) acts).talk }
{}

/// Where the open watch of a connection has nothing to give, it has told all: after what it told last, no selected change
/// stands in the log up to its newest revision. Asked again it has nothing to give either.
pub fn watches_that_wait_have_told_all()
    ensures all { (meta : DynamicObject → ObjectMeta) (changes : List (Change DynamicObject)) (compacted : ℕ) (acts : List (Act DynamicObject))
        → length (fold (acted meta) (fresh changes compacted) acts).changes < 2 ^ 64 → polled meta (fold (acted meta) (fresh changes compacted) acts) ≡ Waits
        → IsToldAll meta (selected_by meta) (fold (acted meta) (fresh changes compacted) acts).changes (fold (acted meta) (fresh changes compacted) acts).talk }
    ensures again { (meta : DynamicObject → ObjectMeta) (changes : List (Change DynamicObject)) (compacted : ℕ) (acts : List (Act DynamicObject))
        → length (fold (acted meta) (fresh changes compacted) acts).changes < 2 ^ 64 → polled meta (fold (acted meta) (fresh changes compacted) acts) ≡ Waits
        → polled meta (after_next meta (fold (acted meta) (fresh changes compacted) acts)) ≡ Waits }
{}

/// After a put the object is found under its key, after a removal none is, and under every other key what was found before.
/// So it is of the state of a history, and of what a server holds. Keys that are the same are equal.
pub fn changes_are_found<V>()
    ensures state { (meta : V → ObjectMeta) (changes : List (Change V)) (change : Change V) (key : Key)
        → object_at key (state_of meta (changes ++ change ∷ [])) ≡ found_after meta key (object_at key (state_of meta changes)) change }
    ensures held { (old new : ServerState) (change : Change ObjectData) (key : Key) → IsStep old new change
        → held_under new key ≡ found_after data_meta key (held_under old key) change }
    ensures same { (key : Key) → same_key key key ≡ true }
    ensures equal { (a b : Key) → same_key a b ≡ true → a ≡ b }
{}

/// A log goes on from itself, and where it goes on twice it goes on. Up to the newest revision of the earlier one the states are
/// the same.
pub fn logs_go_on<V>()
    ensures same { (changes : List (Change V)) (compacted : ℕ) → IsLater changes changes compacted compacted }
    ensures twice { (a b c : List (Change V)) (m n p : ℕ) → IsLater a b m n → IsLater b c n p → IsLater a c m p }
    ensures states { (meta : V → ObjectMeta) (a b : List (Change V)) (m n revision : ℕ) → IsLater a b m n → revision ≤ length a → state_at meta b revision ≡ state_at meta a revision }
{}

/// Whatever a server's objects are asked, its log goes on.
pub fn object_calls_go_on()
    ensures { (old new : ServerState) (namespace : Option (List ℕ)) (now : ℕ) (raw : ObjectRaw DynamicObject) → IsObjectMove old namespace now raw new
        → IsLater old.changes new.changes old.compacted new.compacted }
{}

/// A state has each key once, by namespace, none first, and then by name, both by bytes.
pub fn states_are_in_order()
    ensures { (meta : DynamicObject → ObjectMeta) (changes : List (Change DynamicObject))
        → IsStrictlySortedBy key_cmp (map (λ p. p.0) (state_of meta changes)) }
{}

/// Each change of a history is the next one of those before it, and these are a history.
pub fn histories_grow_by_next_changes<V>()
    ensures next { (meta : V → ObjectMeta) (before after : List (Change V)) (change : Change V) → IsHistory meta (before ++ change ∷ after) → IsNextChange meta before change }
    ensures front { (meta : V → ObjectMeta) (before after : List (Change V)) → IsHistory meta (before ++ after) → IsHistory meta before }
{}

/// In an honest talk the pages of a complete list are together the selected objects at the revision that its version
/// names, each once.
pub fn complete_lists_are_states<V>()
    ensures { (meta : V → ObjectMeta) (selects : Selection → V → Bool) (history : List (Change V)) (talk : List (Raw V)) (list : ListTold V) (version : List ℕ)
        → IsHistory meta history → IsHonest meta selects history talk
        → list_told talk ≡ Some list → unless_empty list.token ≡ None → unless_empty list.version ≡ Some version
        → AreState meta selects history list.selection list.objects version }
{}

/// In an honest talk a later watch that told anything told just the selected changes after the revision of its version,
/// up to some revision, each once and in order. Where an object's key says whether it is selected, it so brings a reader
/// from the selected state at the one revision to that at the other.
pub fn later_watches_tell_each_change<V>()
    ensures { (meta : V → ObjectMeta) (selects : Selection → V → Bool) (history : List (Change V)) (talk : List (Raw V)) (watch : WatchTold V)
        → IsHistory meta history → IsHonest meta selects history talk
        → watch_told talk ≡ Some watch → watch.initial ≡ false
        → TellsAfter meta selects history watch.selection watch.version watch.events ⊎ (watch.events ≡ []) }
{}

/// In an honest talk an initial watch told, up to its ending bookmark, the selected objects at the bookmark's revision,
/// each once, and then just the selected changes after it. Before its bookmark it told some objects of one revision, each
/// once.
pub fn initial_watches_tell_states<V>()
    ensures { (meta : V → ObjectMeta) (selects : Selection → V → Bool) (history : List (Change V)) (talk : List (Raw V)) (watch : WatchTold V)
        → IsHistory meta history → IsHonest meta selects history talk
        → watch_told talk ≡ Some watch → watch.initial ≡ true
        → TellsSome meta selects history watch.selection watch.events ⊎ TellsAll meta selects history watch.selection watch.events }
{}

/// Events without gaps turn a reader's state at one revision into that at the later one that they reach, where an
/// object's key says whether it is selected: what is added or modified is put under its key, and what is deleted goes.
pub fn watches_follow_states<V>()
    ensures tells { (meta : V → ObjectMeta) (selects : Selection → V → Bool) (history : List (Change V)) (s : Selection) (from : ℕ) (events : List (RawAnswer V)) (to : ℕ)
        → from ≤ length history → Follow meta selects history s from events to → TellBetween meta selects history s from events to }
    ensures brings { (meta : V → ObjectMeta) (selects : Selection → V → Bool) (history : List (Change V)) (s : Selection) (from : ℕ) (events : List (RawAnswer V)) (to : ℕ)
        → IsHistory meta history → IsByKey meta (selects s)
        → Follow meta selects history s from events to → BringsTo meta selects history s from events to }
    ensures changes { (meta : V → ObjectMeta) (selects : Selection → V → Bool) (history : List (Change V)) (s : Selection) (from to : ℕ)
        → IsHistory meta history → IsByKey meta (selects s) → from ≤ to
        → fold (changed meta) (selected_state meta selects history s from) (selected_between meta selects history s from to) ≡ selected_state meta selects history s to }
{}

/// The version of the object that a watch told last is a revision from which a watch goes on without gaps: from there up
/// to where the watch had come nothing more was to be told, and where an object's key says whether it is selected the
/// selected state is the same.
pub fn last_versions_go_on<V>()
    ensures { (meta : V → ObjectMeta) (selects : Selection → V → Bool) (history : List (Change V)) (s : Selection) (from : ℕ) (events : List (RawAnswer V)) (event : RawAnswer V) (to : ℕ) (object : V)
        → IsHistory meta history → IsTold object event → Follow meta selects history s from (events ++ event ∷ []) to
        → GoesOnFrom meta selects history s object from to }
{}

/// Of the selectors that a connection supports, an object's key says whether it is selected.
pub fn supported_selectors_are_by_key<V>()
    ensures { (meta : V → ObjectMeta) (s : Selection) → IsByKey meta (selected_by meta s) }
{}

/// Complete lists of one version have the same objects, and later watches from one version that told as many objects as
/// each other told the same ones in the same order.
pub fn talks_of_one_version_agree<V>()
    ensures lists { (meta : V → ObjectMeta) (selects : Selection → V → Bool) (history : List (Change V)) (s : Selection) (version : List ℕ) (os ps : List V)
        → length history < 2 ^ 64 → IsWholeList meta selects history s os version → IsWholeList meta selects history s ps version → IsPermutation os ps }
    ensures watches { (meta : V → ObjectMeta) (selects : Selection → V → Bool) (history : List (Change V)) (s : Selection) (version : List ℕ) (es fs : List (RawAnswer V))
        → FollowsVersion meta selects history s version es → FollowsVersion meta selects history s version fs
        → length (objects_told es) ≡ length (objects_told fs) → objects_told es ≡ objects_told fs }
{}
