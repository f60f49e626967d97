//! Laws of the definitions: each is the contract of a function that does nothing.

ghost use Rattle.std.specs.Prelude.{◌≡◌, ◌++◌, ◌∷◌, [], map, true, false, List};
ghost use Rattle.std.specs.List.{fold, list_any};
ghost use Rattle.kube_meta.specs.Reference.{Reference};
ghost use Rattle.kube_watch.specs.declared.event.Event.{Event as event_data};
ghost use Rattle.kube_watch.specs.declared.event.Event.TheVariants.{InitDone};
ghost use Rattle.kube_reflect.specs.Cached.{cache, keyed, put_under};
ghost use Rattle.kube_reflect.specs.Relists.{begins_list, listed};
ghost use Rattle.kube_reflect.specs.Subscriptions.{Act, offers, seen, waiting_after};

/// `InitDone` replaces the whole store: what is then stored is what was listed since the latest `Init` or `InitDone`,
/// whatever was stored before.
pub fn list_replaces_the_store<O>()
    ensures { (key : O → Reference) (before during : List (event_data O)) (begin : event_data O)
        → begins_list begin ≡ true → list_any begins_list during ≡ false
        → cache key (before ++ begin ∷ (during ++ InitDone ∷ [])) ≡ fold put_under [] (map (keyed key) (listed during)) }
{}

/// The same where no list came before.
pub fn first_list_is_the_store<O>()
    ensures { (key : O → Reference) (during : List (event_data O)) → list_any begins_list during ≡ false
        → cache key (during ++ InitDone ∷ []) ≡ fold put_under [] (map (keyed key) (listed during)) }
{}

/// What a subscriber has taken or passed over is, in order and each once, what was offered from its place on, up to what
/// still waits for it.
pub fn each_offer_is_seen_once<O>()
    ensures { (rs : List Reference) (acts : List (Act O)) → seen rs acts ++ waiting_after rs acts ≡ rs ++ offers acts }
{}
