//! Laws of a core's events: each is the contract of a function that does nothing.
//!
//! `O` is any type of objects, and `B` any type of a backoff's states. `policies` has what the error policy answers.

ghost use Rattle.std.specs.Prelude.{◌≡◌, ◌↔◌, ◌||◌, ◌==◌, ◌++◌, ◌∷◌, [], ℕ, List, Option, Some, length, true, false, None};
ghost use Rattle.std.specs.List.{count_by, filter_map};
ghost use Rattle.kube_meta.specs.Reference.{Reference, same_reference};
ghost use Rattle.kube_model.specs.World.{World, Settings, Watched, feed_of};
ghost use Rattle.kube_model.specs.Reads.{Reads, nothing_read};
ghost use Rattle.kube_model.specs.History.{same_message, Message, Dated, Exchange, exchanges, exchanges_of, exchanges_with, Finish, Finished, Step, Taken, Turn, TurnRecord};
ghost use Rattle.kube_model.specs.Owed.{owed};
ghost use Rattle.kube_model.specs.Fits.{IsFitting};
ghost use Rattle.kube_model.specs.Store.{under_way};
ghost use Rattle.kube_model.specs.Queue.{Frozen, QueueEvent, Settled, Took as QueueTook, waiting};
ghost use Rattle.kube_model.specs.Shutdowns.{is_closed, is_shut};
ghost use Rattle.kube_model.specs.Requests.{Timed, events_of, requested_and_settled, took, turn_events};
ghost use Rattle.kube_model.specs.Takes.{Running, found_in, running, runs, started, taken_of, unfinished};
ghost use Rattle.kube_model.specs.Turns.{is_idle_after, next_source, record_with};
ghost use Rattle.kube_model.specs.Traces.{AreFinishesOf, EachIsNext, IsRecord, IsTrace, IsValid, Made, step, steps, unread};
ghost use Rattle.kube_model.specs.Named.{EachIsNamed, AreNamedTurns, RootIsNamed};
ghost use Rattle.kube_model.specs.WaitingOnce.{HasEachOnce};
ghost use Rattle.kube_history.specs.CoreWorld.{core_world, CoreWorld};
ghost use Rattle.kube_history.specs.CoreEvents.{CoreEvent, answers_in, clock_of, is_shutdown, listing_of, moment_of, queue_by, queue_of, root_answers, running_of, running_with, was_shut};
ghost use Rattle.kube_history.specs.InTurn.{AreTaken, look_in, without};
ghost use Rattle.kube_history.specs.TurnCalls.{ReadsAndTakes, with_requests};
ghost use Rattle.kube_history.specs.Legal.{AreLegal, MayBeAnswered};
ghost use Rattle.kube_history.specs.TurnEvents.{asks, before_takes, core_events, core_of, takes};
ghost use Rattle.kube_history.specs.Agrees.{Agrees, AgreesSoFar, EachFits};
ghost use Rattle.kube_history.specs.PoolHistory.{PoolEntry, entry_events, events_in, has_started, IsOfPass, IsPoolHistory};
ghost use Rattle.kube_history.specs.Running.{EachShutsDown, MayRun};
ghost use Rattle.kube_history.specs.SettledEvents.{AreSettled};

/// One more event: what each word says after it, from what it said before.
pub fn one_more_event<O>()
    ensures queue { (core : CoreWorld O) (es : List (CoreEvent O)) (e : CoreEvent O) → queue_of core (es ++ e ∷ []) ≡ queue_of core es ++ queue_by core es e }
    ensures running { (es : List (CoreEvent O)) (e : CoreEvent O) → running_of (es ++ e ∷ []) ≡ running_with (running_of es) e }
    ensures answers { (es : List (CoreEvent O)) (e : CoreEvent O) → answers_in (es ++ e ∷ []) ≡ answers_in es ++ answers_in (e ∷ []) }
    ensures shut { (es : List (CoreEvent O)) (e : CoreEvent O) → was_shut (es ++ e ∷ []) ≡ was_shut es || is_shutdown e }
    ensures clock { (es : List (CoreEvent O)) (e : CoreEvent O) → clock_of (es ++ e ∷ []) ≡ moment_of e }
{}

/// Nothing stays unreconciled, over any legal list of events until a shutdown: every object that is stored was last handed over
/// as it stands, or its key has an entry.
pub fn legal_lists_are_settled<O>()
    ensures { (core : CoreWorld O) (es : List (CoreEvent O)) → AreLegal core [] es → was_shut es ≡ false → AreSettled core es }
{}

/// Lists of events are legal, one after another, exactly where they are legal joined.
pub fn legal_lists_join<O>()
    ensures { (core : CoreWorld O) (before es fs : List (CoreEvent O)) → AreLegal core before (es ++ fs) ↔ AreLegal core before es × AreLegal core (before ++ es) fs }
{}

/// A message that is taken is gone from those that wait, and the others stay in their order.
pub fn take_closes_up()
    ensures { (debounce : ℕ) (events : List (QueueEvent Message)) (m : Message)
        → waiting same_message debounce (events ++ QueueTook m ∷ []) ≡ without m (waiting same_message debounce events) }
{}

/// What fits in a world whose root is watched, after exchanges each of which fits, a core may be answered with, whatever
/// the settings, feeds and windows: where it is of the root, its objects are to have names.
pub fn what_fits_may_be_answered<O, B>()
    ensures { (w : World O B) (settings : Settings) → feed_of w 0 ≡ Watched settings → (ds : List (Dated O)) (at : ℕ) (x : Exchange O)
        → EachFits w [] ds → IsFitting w ds at x → RootIsNamed w x.source (exchanges_of x.source ds) x → MayBeAnswered (core_world w) ds x }
{}

/// Each exchange of a turn fits after those of its history that do.
pub fn exchanges_of_a_turn_fit<O, B>()
    ensures { (w : World O B) (h : List (Step O)) (t : Turn) (xs : List (Exchange O)) → EachFits w [] (exchanges h) → EachIsNext w h t [] xs → EachFits w [] (exchanges_with h t xs) }
{}

/// One more turn: where a core's events agree with a history, they and the events of a turn whose root is named agree
/// with the history and the turn.
pub fn turn_agrees<O, B>()
    ensures { (w : World O B) (settings : Settings) → feed_of w 0 ≡ Watched settings → (policies : ℕ → O → Option ℕ)
        → (h : List (Step O)) (t : Turn) (m : Made O) (es : List (CoreEvent O)) → IsRecord w policies h t m → EachIsNamed w (RootIsNamed w) h t [] m.0.exchanges → Agrees w h es
        → Agrees w (h ++ step t m ∷ []) (es ++ core_events w h (step t m)) }
{}

/// The core's events over a trace whose root is named are legal, and agree with its history.
pub fn trace_agrees<O, B>()
    ensures { (w : World O B) (settings : Settings) → feed_of w 0 ≡ Watched settings → (policies : ℕ → ℕ → O → Option ℕ)
        → (ts : List Turn) (ms : List (Made O)) → IsTrace w policies [] ts ms → AreNamedTurns w (RootIsNamed w) [] (steps ts ms) → Agrees w (steps ts ms) (core_of w (steps ts ms)) }
{}

/// From calls to a record: where the asks of an open turn, and takes up to the first that finds nothing, are legal,
/// they make the turn's record, which took just these; and the turn's root is named.
pub fn calls_make_a_turn<O, B>()
    ensures { (w : World O B) (settings : Settings) → feed_of w 0 ≡ Watched settings → (policies : ℕ → O → Option ℕ)
        → (h : List (Step O)) (t : Turn) (fs : List Finished) (xs : List (Exchange O)) (ts : List (Taken O)) (es : List (CoreEvent O))
        → is_closed w h t ≡ false → Agrees w h es → IsValid h t → AreFinishesOf policies (running h) t.finishes fs → EachIsNext w h t [] xs → next_source w h t xs ≡ None
        → AreLegal (core_world w) [] (es ++ before_takes w h t fs xs ++ takes t.at ts)
        → IsRecord w policies h t (unread (record_with w h t nothing_read fs xs)) × ((record_with w h t nothing_read fs xs).taken ≡ ts) × EachIsNamed w (RootIsNamed w) h t [] xs }
{}

/// A closed turn asks and takes nothing.
pub fn closed_calls_make_a_turn<O, B>()
    ensures { (w : World O B) (settings : Settings) → feed_of w 0 ≡ Watched settings → (policies : ℕ → O → Option ℕ) (h : List (Step O)) (t : Turn) (fs : List Finished)
        → is_closed w h t ≡ true → IsValid h t → AreFinishesOf policies (running h) t.finishes fs
        → IsRecord w policies h t (unread (record_with w h t nothing_read fs [])) × ((record_with w h t nothing_read fs []).taken ≡ []) }
{}

/// The events of an open turn so far, up to any of its exchanges, are legal after those of the history, and say what
/// the turn has done.
pub fn turn_agrees_so_far<O, B>()
    ensures { (w : World O B) (settings : Settings) → feed_of w 0 ≡ Watched settings → (policies : ℕ → O → Option ℕ)
        → (h : List (Step O)) (t : Turn) (fs : List Finished) (xs : List (Exchange O)) (es : List (CoreEvent O))
        → is_closed w h t ≡ false → IsValid h t → AreFinishesOf policies (running h) t.finishes fs → EachIsNext w h t [] xs → EachIsNamed w (RootIsNamed w) h t [] xs → Agrees w h es
        → AgreesSoFar w h t fs xs (es ++ asks t fs xs) }
{}

/// So it is of a turn that is broken off at a source which was to be asked next, as where what came has no name.
pub fn broken_turn_agrees_so_far<O, B>()
    ensures { (w : World O B) (settings : Settings) → feed_of w 0 ≡ Watched settings → (policies : ℕ → O → Option ℕ)
        → (h : List (Step O)) (t : Turn) (fs : List Finished) (xs : List (Exchange O)) (source : ℕ) (es : List (CoreEvent O))
        → IsValid h t → AreFinishesOf policies (running h) t.finishes fs → EachIsNext w h t [] xs → EachIsNamed w (RootIsNamed w) h t [] xs → next_source w h t xs ≡ Some source → Agrees w h es
        → AgreesSoFar w h t fs xs (es ++ asks t fs xs) }
{}

/// Legal answers of the root hold named objects.
pub fn legal_answers_are_named<O, B>()
    ensures { (w : World O B) (h : List (Step O)) (t : Turn) (fs : List Finished) (xs : List (Exchange O)) (es : List (CoreEvent O))
        → Agrees w h es → AreLegal (core_world w) es (asks t fs xs) → EachIsNamed w (RootIsNamed w) h t [] xs }
{}

/// Whether nothing runs after a turn is seen from its core.
pub fn idle_is_nothing_running<O, B>()
    ensures { (w : World O B) (h : List (Step O)) (t : Turn) (m : Made O) (es : List (CoreEvent O)) → Agrees w (h ++ step t m ∷ []) es
        → is_idle_after w h t m.0.taken ≡ (length (running_of es) == 0) }
{}

/// After a shutdown a turn without finishes leaves no event, and so not its moment.
pub fn late_turn_leaves_no_event<O, B>()
    ensures { (w : World O B) (h : List (Step O)) (s : Step O) → is_shut h ≡ true → s.made.finished ≡ [] → core_events w h s ≡ [] }
{}

/// The list under way is the same whatever the settings of the root's watcher.
pub fn listing_is_of_any_settings<O>()
    ensures { (settings : Settings) (es : List (CoreEvent O)) → listing_of es ≡ under_way (owed (Watched settings) (root_answers es)) (root_answers es) }
{}

/// Takes of first candidates, one after another until none is left, each looked up in one store, are those of a turn.
pub fn takes_one_after_another<O>()
    ensures { (key : O → Reference) (limit : ℕ) (store : List O) (ts : List (Taken O)) (rs : List (Running O)) (ws : List (Frozen Message))
        → HasEachOnce same_message ws → AreTaken limit (look_in key store) 0 ws rs ts → ts ≡ taken_of limit (found_in key store) rs ws }
{}

/// However the root is fed: finishes, exchanges, reads and takes one after another, each with what its look-up answered,
/// make the turn's record, which took just these.
pub fn reads_and_takes_make_a_turn<O, B>()
    ensures { (w : World O B) (policies : ℕ → O → Option ℕ) (h : List (Step O)) (t : Turn) (r : Reads O) (fs : List Finished) (xs : List (Exchange O)) (ts : List (Taken O))
        → IsValid h t → AreFinishesOf policies (running h) t.finishes fs → EachIsNext w h t [] xs → next_source w h t xs ≡ None → ReadsAndTakes w h t r fs xs ts
        → IsRecord w policies h t (record_with w h t r fs xs, r) × ((record_with w h t r fs xs).taken ≡ ts) }
{}

/// And back: the reads and the takes of a turn are made one after another.
pub fn turn_is_its_reads_and_takes<O, B>()
    ensures { (w : World O B) (policies : ℕ → O → Option ℕ) (h : List (Step O)) (t : Turn) (m : Made O)
        → IsRecord w policies h t m → ReadsAndTakes w h t m.1 m.0.finished m.0.exchanges m.0.taken }
{}

/// A turn adds to the queue its requests, its settle and its takes.
pub fn turn_grows_the_queue<O, B>()
    ensures { (w : World O B) (h : List (Step O)) (s : Step O)
        → events_of w (h ++ s ∷ []) ≡ events_of w h ++ turn_events w h s.turn s.reads s.made.finished s.made.exchanges ++ took s.made.taken }
{}

/// Requests that come one part after another are requests that come together.
pub fn requests_join()
    ensures { (events : List (QueueEvent Message)) (at : ℕ) (ps qs : List Timed) → with_requests (with_requests events at ps) at qs ≡ with_requests events at (ps ++ qs) }
{}

/// Requests and then a settle are what a turn does to the queue before its takes.
pub fn requests_then_settle()
    ensures { (events : List (QueueEvent Message)) (at : ℕ) (qs : List Timed)
        → with_requests events at qs ++ Settled at ∷ [] ≡ events ++ requested_and_settled at qs }
{}

/// A turn takes what it finishes from what runs, and adds what it starts.
pub fn turn_changes_what_runs<O>()
    ensures { (h : List (Step O)) (s : Step O) → running (h ++ s ∷ []) ≡ unfinished (running h) s.turn.finishes ++ filter_map started s.made.taken }
{}

/// Finishes of a valid turn come one after another: each takes its reference from what runs, and finds it running.
pub fn finishes_one_after_another<O>()
    ensures left { (rs : List (Running O)) (front rest : List Finish) → unfinished rs (front ++ rest) ≡ unfinished (unfinished rs front) rest }
    ensures ran { (h : List (Step O)) (t : Turn) (front : List Finish) (f : Finish) (rest : List Finish) → IsValid h t → t.finishes ≡ front ++ f ∷ rest
        → runs (unfinished (running h) front) f.reference ≡ true }
{}

/// In a legal list no two equal references run at once, and at most as many as the limit (0: any).
pub fn no_two_run_at_once<O>()
    ensures { (core : CoreWorld O) (es : List (CoreEvent O)) → AreLegal core [] es → MayRun core.limit (running_of es) }
{}

/// After each trace, and so after each turn of it, no two equal references run at once, and at most as many as the
/// limit (0: any), however the root is fed.
pub fn no_two_run_at_once_in_a_trace<O, B>()
    ensures { (w : World O B) (policies : ℕ → ℕ → O → Option ℕ) (ts : List Turn) (ms : List (Made O)) → IsTrace w policies [] ts ms → MayRun w.limit (running (steps ts ms)) }
{}

/// After shutdown nothing is taken; and no record follows a forced turn's, the first one from the shutdown on in which
/// nothing runs, or any that has ended.
pub fn nothing_follows_a_shutdown<O, B>()
    ensures { (w : World O B) (policies : ℕ → ℕ → O → Option ℕ) (ts : List Turn) (ms : List (Made O)) → IsTrace w policies [] ts ms → EachShutsDown w [] (steps ts ms) }
{}

/// A pool's history grows by one entry exactly where its events are legal and are what its pass may do.
pub fn pool_history_grows<O>()
    ensures { (core : CoreWorld O) (opening : List (CoreEvent O)) (entries : List (PoolEntry O)) (e : PoolEntry O)
        → IsPoolHistory core opening (entries ++ e ∷ []) ↔ IsPoolHistory core opening entries × AreLegal core (opening ++ events_in entries) (entry_events e) × IsOfPass entries e }
{}

/// Each front of a pool's history is one.
pub fn front_of_a_pool_history<O>()
    ensures { (core : CoreWorld O) (opening : List (CoreEvent O)) (front rest : List (PoolEntry O)) → IsPoolHistory core opening (front ++ rest) → IsPoolHistory core opening front }
{}

/// After a legal opening list a pool's events are legal.
pub fn pool_events_are_legal<O>()
    ensures { (core : CoreWorld O) (opening : List (CoreEvent O)) (entries : List (PoolEntry O)) → AreLegal core [] opening → IsPoolHistory core opening entries
        → AreLegal core [] (opening ++ events_in entries) }
{}

/// What a pass of a pool has started and not finished runs: so its finish finds it running.
pub fn started_by_a_pass_runs<O>()
    ensures { (core : CoreWorld O) (opening : List (CoreEvent O)) (entries : List (PoolEntry O)) → IsPoolHistory core opening entries
        → (pass : ℕ) (r : Reference) → has_started pass r entries ≡ true → runs (running_of (opening ++ events_in entries)) r ≡ true }
{}

/// No two passes have started equal references that they have not finished.
pub fn one_pass_has_started_it<O>()
    ensures { (core : CoreWorld O) (opening : List (CoreEvent O)) (entries : List (PoolEntry O)) → IsPoolHistory core opening entries
        → (pass other : ℕ) (r s : Reference) → same_reference r s ≡ true → has_started pass r entries ≡ true → has_started other s entries ≡ true → pass ≡ other }
{}
