//! A law of the definitions: it is the contract of a function that does nothing.

ghost use Rattle.std.specs.Prelude.{◌≡◌, Bool, List, Some, None, map};
ghost use Rattle.kube_model.specs.Queue.{QueueEvent, Entry, entry};
ghost use Rattle.kube_sched.specs.Least.{NeverFall, clamped_time, asked_since, least};

/// Without debounce, and where moments never fall, a message that doesn't wait yet is due at the earliest of the
/// times for which it was asked since it was last taken, none of them later than 180 days after its request.
pub fn entry_has_the_least_time<M>()
    ensures { (same : M → M → Bool) (events : List (QueueEvent M)) → NeverFall 0 events → (m : M) (e : Entry M)
        → entry same 0 events m ≡ Some e → e.settle ≡ None → Some e.time ≡ least (map clamped_time (asked_since same m events)) }
{}
