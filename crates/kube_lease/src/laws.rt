//! Laws over every election: no two candidates ever lead at once.

ghost use Rattle.std.specs.Prelude.{◌≡◌, ◌<◌, ◌++◌, ℕ, List, Some, slice_get, true, IfOk};
ghost use Rattle.kube_meta.specs.Reading.{seen_object};
ghost use Rattle.kube_lease.specs.Candidates.{Standing, may_act_at};
ghost use Rattle.kube_lease.specs.Elections.{AreEntrants, IsClaim, is_election, past_of};
ghost use Rattle.kube_lease.specs.Played.{IsHeldBy, IsPlayedOn, IsSeenAs, candidates_after};
ghost use Rattle.kube_lease.specs.declared.election.LeaseStep.{LeaseStep as Step};

pub use crate::election::{Entrant, LeaseStep};
pub use crate::play::PlayedElection;
use crate::play::played;
use kube_meta::NoMemory;
use std::alloc::Global;

/// In an election, two candidates never have claims of one term, and at each of the server's moments at most one has a claim
/// whose `until` is above it: whatever patches arrive late, often or never, and whatever replies are lost. So at most one of the
/// candidates may act then, by what it has observed.
pub fn one_holder(candidates: &[Entrant], election: &[LeaseStep])
    requires entrants { AreEntrants candidates.now }
    requires valid { is_election candidates.now election.now ≡ true }
    ensures terms { (front back : List Step) → election.now ≡ front ++ back → (c d term u v : ℕ)
        → IsClaim candidates.now (past_of candidates.now front) c term u → IsClaim candidates.now (past_of candidates.now front) d term v → c ≡ d }
    ensures acting { (front back : List Step) → election.now ≡ front ++ back → (c d s t u v : ℕ)
        → IsClaim candidates.now (past_of candidates.now front) c s u → IsClaim candidates.now (past_of candidates.now front) d t v
        → (past_of candidates.now front).now < u → (past_of candidates.now front).now < v → c ≡ d }
    ensures leading { (front back : List Step) → election.now ≡ front ++ back → (c d : ℕ) (s t : Standing)
        → slice_get (candidates_after candidates.now (past_of candidates.now front)) c ≡ Some s → slice_get (candidates_after candidates.now (past_of candidates.now front)) d ≡ Some t
        → may_act_at s.claim (past_of candidates.now front).now ≡ true → may_act_at t.claim (past_of candidates.now front).now ≡ true → c ≡ d }
{}

/// Plays an election on a server in memory, of candidates for a lease named `lease` that nobody has held, at moment 0: each
/// candidate is a `Candidate` that is polled where it sends, and a patch arrives by the server's `ServerObjects`. It gives the
/// lease's object and the candidates in the state that the definitions say, and the server, which has that object alone. All
/// that was asked of the server is that the lease was put, and then the patch of each arrival.
///
/// Errors: `NoMemory`.
pub fn play(
    alloc: Global,
    candidates: &[Entrant],
    election: &[LeaseStep],
) -> Result<PlayedElection, NoMemory>
    requires entrants { AreEntrants candidates.now }
    requires valid { is_election candidates.now election.now ≡ true }
    ensures lease { IfOk result (λ p. IsSeenAs (seen_object p.lease) (past_of candidates.now election.now).current) }
    ensures held { IfOk result (λ p. IsHeldBy p.server (past_of candidates.now election.now).current) }
    ensures asked { IfOk result (λ p. IsPlayedOn candidates.now election.now p.server) }
    ensures candidates { IfOk result (λ p. p.candidates ≡ candidates_after candidates.now (past_of candidates.now election.now)) }
{
    played(alloc, candidates, election)
}
