//! Laws of a cache that is told what a watcher's exchanges tell: each is the contract of a function that does nothing.
//! `O` is any type of objects.

ghost use Rattle.std.specs.Prelude.{◌≡◌, true, not, ◌||◌, IsTrue, List, ◌++◌, ◌∷◌, []};
ghost use Rattle.std.specs.List.{fold, list_all};
ghost use Rattle.kube_meta.specs.declared.metadata.ObjectMeta.{ObjectMeta};
ghost use Rattle.kube_meta.specs.Keys.{is_named};
ghost use Rattle.kube_meta.specs.Reference.{Reference};
ghost use Rattle.kube_model.specs.World.{Settings, Watched};
ghost use Rattle.kube_model.specs.History.{Exchange};
ghost use Rattle.kube_model.specs.Owed.{mark, owed};
ghost use Rattle.kube_model.specs.Fits.{answers, has_references};
ghost use Rattle.kube_model.specs.Store.{store_of};
ghost use Rattle.kube_watch.specs.Agrees.{asks_api};
ghost use Rattle.kube_watch.specs.Order.{AreMade, events_after};
ghost use Rattle.kube_watch.specs.Stands.{row_of};
ghost use Rattle.kube_reflect.specs.Cached.{Kept, applied, cache, has_name, kept_after};
ghost use Rattle.kube_reflect.specs.Exchanged.{MayFollow, MayCome, IsLeftBy, all_keyed};

/// One more exchange: where what is kept is what some exchanges leave, and one more may follow them, then what it tells,
/// applied, makes of it what they leave with that one. So for every call and answer, and whichever form of start is owed.
pub fn one_more_exchange<O>()
    ensures { (key : O → Reference) (settings : Settings) (xs : List (Exchange O)) (x : Exchange O) (k : Kept O) → MayFollow xs x → IsLeftBy key xs k
        → IsLeftBy key (xs ++ x ∷ []) (fold (applied key) k (row_of settings xs x).events) }
{}

/// The events of a watcher's exchanges make their store: what is kept after them, from nothing on, is what these exchanges
/// leave. Those that one watcher makes may come one after another; so what is then stored is their last complete list,
/// changed by what came since, each object under its own reference.
pub fn events_make_the_store<O>()
    ensures left { (key : O → Reference) (settings : Settings) (xs : List (Exchange O)) → MayCome [] xs → IsLeftBy key xs (kept_after key (events_after settings [] xs)) }
    ensures made { (settings : Settings) (before xs : List (Exchange O)) → AreMade settings before xs → MayCome before xs }
    ensures stored { (key : O → Reference) (settings : Settings) (xs : List (Exchange O)) → AreMade settings [] xs
        → cache key (events_after settings [] xs) ≡ all_keyed key (store_of key xs) }
{}

/// Names agree: an event has no name exactly where an object of its exchange must become a reference and has none.
pub fn names_agree<O>()
    ensures { (meta : O → ObjectMeta) (settings : Settings) (before : List (Exchange O)) (x : Exchange O) → x.call ≡ owed (Watched settings) before
        → asks_api x.call ≡ true → IsTrue (answers x.call x.answer)
        → list_all (has_name meta) (row_of settings before x).events ≡ (not (has_references (mark before x)) || list_all (λ o. is_named (meta o)) x.items) }
{}
