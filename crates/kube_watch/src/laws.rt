//! Laws of the watcher's table: each is the contract of a function that does nothing. `O` is any type of objects.

ghost use Rattle.std.specs.Prelude.{◌≡◌, ◌≤◌, ℕ, List, [], ◌∷◌, ◌++◌, true, false, IsTrue};
ghost use Rattle.std.specs.List.{list_any};
ghost use Rattle.kube_model.specs.World.{Settings, Watched, World};
ghost use Rattle.kube_model.specs.History.{Dated, Exchange};
ghost use Rattle.kube_model.specs.Owed.{owed};
ghost use Rattle.kube_model.specs.Fits.{answers, WatchItemsFit};
ghost use Rattle.kube_model.specs.Raw.{Raw};
ghost use Rattle.kube_model.specs.Recorded.{IsRecorded};
ghost use Rattle.kube_watch.specs.declared.event.Event.{Event};
ghost use Rattle.kube_watch.specs.declared.event.Event.TheVariants.{Init};
ghost use Rattle.kube_watch.specs.Agrees.{Agrees, asks_api, is_done};
ghost use Rattle.kube_watch.specs.Idling.{idles};
ghost use Rattle.kube_watch.specs.Polls.{AreNext};
ghost use Rattle.kube_watch.specs.Order.{AreMade, IsOrdered, Unbegun, events_after, is_change};

/// The row of an exchange has the error, the owed call, the seen version and the changes that the definitions give, tells
/// `InitDone` exactly where they complete, and tells of exactly the objects that must become references, in order.
pub fn the_table_agrees<O>()
    ensures { (settings : Settings) (before : List (Exchange O)) (x : Exchange O) → x.call ≡ owed (Watched settings) before
        → asks_api x.call ≡ true → IsTrue (answers x.call x.answer) → Agrees settings before x }
{}

/// The events of a watcher's exchanges come in order: `InitApply` and `InitDone` only after an `Init` with no `InitDone`
/// since, `Apply` and `Delete` only after an `InitDone` with no `Init` since.
pub fn events_are_ordered<O>()
    ensures { (settings : Settings) (xs : List (Exchange O)) → AreMade settings [] xs → IsOrdered Unbegun (events_after settings [] xs) }
{}

/// Between an `Init` and the `InitDone` after it no `Apply` or `Delete` stands.
pub fn no_change_stands_in_a_list<O>()
    ensures { (settings : Settings) (xs : List (Exchange O)) → AreMade settings [] xs → (front middle back : List (Event O))
        → events_after settings [] xs ≡ front ++ Init ∷ (middle ++ back) → list_any is_done middle ≡ false → list_any is_change middle ≡ false }
{}

/// At one moment a watcher idles at most once, since a window is 6 seconds long at least and begins anew where it was over.
pub fn idles_at_most_once<O>()
    ensures { (settings : Settings) (ds : List (Dated O)) (now : ℕ) (xs : List (Exchange O)) → AreNext settings ds now xs → idles xs ≤ 1 }
{}

/// The objects of an exchange that is recorded from a raw form fit its answer: any of a page, one of the answer's version
/// where it tells of an object, and none else.
pub fn recorded_objects_fit<O, B>()
    ensures { (w : World O B) (settings : Settings) (raw : Raw O) (x : Exchange O) → IsRecorded w.version settings raw x → WatchItemsFit w x.answer x.items }
{}
