//! Worked elections, each with what the definitions make of it. The functions do nothing.

ghost use Rattle.std.specs.Prelude.{◌≡◌, ◌∷◌, ◌++◌, [], Some, None, true, false};
ghost use Rattle.kube_lease.specs.Leases.{Wait, Take, choice, unheld};
ghost use Rattle.kube_lease.specs.Candidates.{may_act_at};
ghost use Rattle.kube_lease.specs.Elections.{AreEntrants, is_election, leases, past_of, under};
ghost use Rattle.kube_lease.specs.Played.{claim_among};
ghost use Rattle.kube_lease.specs.Rows.{both, held_by, lost_reply, observed_at_3, renewed_at_5, taken_at_15, tried_at_10, x, y};

/// A candidate that renews in time stays; another one takes the lease once it is over, and not by what it saw before the renewal.
pub fn renewal_keeps_the_lease()
    ensures valid { is_election both (renewed_at_5 ++ tried_at_10 ++ taken_at_15) ≡ true }
    ensures renewed { leases (past_of both renewed_at_5) ≡ unheld ∷ held_by x 1 10 ∷ held_by x 1 15 ∷ [] }
    ensures waits { choice y 10 9 (Some (held_by x 1 10)) ≡ Wait 10 }
    ensures tries { choice y 10 10 (Some (held_by x 1 10)) ≡ Take }
    ensures refused { (past_of both (renewed_at_5 ++ tried_at_10)).current ≡ held_by x 1 15 }
    ensures taken { (past_of both (renewed_at_5 ++ tried_at_10 ++ taken_at_15)).current ≡ held_by y 2 25 }
    ensures acts { may_act_at (Some (record { term = 1; until = 15 })) 14 ≡ true }
    ensures acts_no_more { may_act_at (Some (record { term = 1; until = 15 })) 15 ≡ false }
{}

/// A candidate whose reply is lost has no claim until it observes the lease.
pub fn lost_reply_gives_no_claim()
    ensures valid { is_election both (lost_reply ++ observed_at_3) ≡ true }
    ensures held { (past_of both lost_reply).current ≡ held_by x 1 10 }
    ensures unseen { under 0 (past_of both lost_reply).observed ≡ Some unheld }
    ensures unclaimed { claim_among x 0 (past_of both lost_reply).observed ≡ None }
    ensures claimed { claim_among x 0 (past_of both (lost_reply ++ observed_at_3)).observed ≡ Some (record { term = 1; until = 10 }) }
    ensures acts { may_act_at (Some (record { term = 1; until = 10 })) 9 ≡ true }
    ensures acts_no_more { may_act_at (Some (record { term = 1; until = 10 })) 10 ≡ false }
{}

/// The two candidates of these elections have different ids.
pub fn candidates_are_entrants()
    ensures { AreEntrants both }
{}
