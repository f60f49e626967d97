//! Laws: each is the contract of a function that does nothing.
//!
//! `V` is any type of objects, and `B` any type of a backoff's states.

ghost use Rattle.std.specs.Prelude.{◌≡◌, ◌<◌, ◌^◌, ◌++◌, ℕ, [], Bool, List, Option, length, take};
ghost use Rattle.kube_meta.specs.declared.metadata.ObjectMeta.{ObjectMeta};
ghost use Rattle.kube_meta.specs.Reference.{ObjectType};
ghost use Rattle.kube_model.specs.declared.call.Call.TheVariants.{Next};
ghost use Rattle.kube_model.specs.World.{World, Settings, Watched, feed_of};
ghost use Rattle.kube_model.specs.History.{Dated, Turn, exchanges, exchanges_of};
ghost use Rattle.kube_model.specs.Owed.{owed};
ghost use Rattle.kube_model.specs.Raw.{Raw};
ghost use Rattle.kube_model.specs.Recorded.{AreRecorded};
ghost use Rattle.kube_model.specs.Store.{store_of};
ghost use Rattle.kube_model.specs.Traces.{IsTrace, Made, steps};
ghost use Rattle.kube_history.specs.Agrees.{EachFits};
ghost use Rattle.kube_server.specs.History.{Change, IsHistory};
ghost use Rattle.kube_server.specs.Honest.{Selection, IsHonest};
ghost use Rattle.kube_honest.specs.States.{selection_by, IsOfMetadata, IsStateAt, StoresState};
ghost use Rattle.kube_server.specs.Readers.{IsByKey, IsToldAll};

/// Over a root whose API is honest to a history a controller stores states of it: after each turn of each trace nothing
/// before the first complete list, and from then on, as a map from references to objects, the selected objects of the
/// history at the revision that the version names which was seen last. So it is while a further list is under way, and
/// after faults, error items, ends and silence too; and whatever the API was asked before the trace.
///
/// Which objects are selected has to depend on their namespaces and names alone, as it does for the selectors that a
/// connection supports (kube_server's `supported_selectors_are_by_key`), and where all are. A version that names a
/// revision is a `u64`, so there are fewer than 2^64 changes.
pub fn honest_roots_store_states<V, B>()
    ensures { (w : World V B) (settings : Settings) → feed_of w 0 ≡ Watched settings → (kind : ObjectType) (meta : V → ObjectMeta) → IsOfMetadata w kind meta
        → (selects : Selection → V → Bool) → IsByKey meta (selects (selection_by settings)) → (history : List (Change V)) → IsHistory meta history → length history < 2 ^ 64
        → (policies : ℕ → ℕ → V → Option ℕ) (ts : List Turn) (ms : List (Made V)) → IsTrace w policies [] ts ms
        → (before talk : List (Raw V)) → AreRecorded w.version settings talk (exchanges_of 0 (exchanges (steps ts ms))) → IsHonest meta selects history (before ++ talk)
        → (n : ℕ) → StoresState w.key meta selects history (selection_by settings) (exchanges_of 0 (exchanges (take n (steps ts ms)))) }
{}

/// The same of exchanges of all sources, whoever made them, where each fits those before it. Where the root owes the next
/// event of a watch that has told all there is (kube_server's `watches_that_wait_have_told_all`), what is stored is the newest
/// state of the history.
pub fn honest_exchanges_store_states<V, B>()
    ensures states { (w : World V B) (settings : Settings) → feed_of w 0 ≡ Watched settings → (kind : ObjectType) (meta : V → ObjectMeta) → IsOfMetadata w kind meta
        → (selects : Selection → V → Bool) → IsByKey meta (selects (selection_by settings)) → (history : List (Change V)) → IsHistory meta history → length history < 2 ^ 64
        → (ds : List (Dated V)) → EachFits w [] ds
        → (before talk : List (Raw V)) → AreRecorded w.version settings talk (exchanges_of 0 ds) → IsHonest meta selects history (before ++ talk)
        → StoresState w.key meta selects history (selection_by settings) (exchanges_of 0 ds) }
    ensures newest { (w : World V B) (settings : Settings) → feed_of w 0 ≡ Watched settings → (kind : ObjectType) (meta : V → ObjectMeta) → IsOfMetadata w kind meta
        → (selects : Selection → V → Bool) → IsByKey meta (selects (selection_by settings)) → (history : List (Change V)) → IsHistory meta history → length history < 2 ^ 64
        → (ds : List (Dated V)) → EachFits w [] ds
        → (before talk : List (Raw V)) → AreRecorded w.version settings talk (exchanges_of 0 ds) → IsHonest meta selects history (before ++ talk)
        → owed (Watched settings) (exchanges_of 0 ds) ≡ Next → IsToldAll meta selects history (before ++ talk)
        → IsStateAt w.key meta selects history (selection_by settings) (length history) (store_of w.key (exchanges_of 0 ds)) }
{}
