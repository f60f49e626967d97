//! An election: what happens to a lease, as a list of steps.

use kube_meta::Text;

/// A candidate of an election.
#[derive(Debug, Drop)]
pub struct Entrant {
    pub id: Text,
    /// How long it holds the lease from each moment at which it takes or renews it, in nanoseconds.
    pub duration: u64,
}

/// A step of an election. A candidate's number is its place among the candidates. States of the lease are numbered from 0,
/// which is that before the first patch, and sends from 0 in their order.
#[derive(Debug, Drop)]
pub enum LeaseStep {
    /// The server's moment rises by so many nanoseconds.
    Tick { by: u64 },
    /// A candidate observes a state so far.
    Observe { candidate: u32, state: u32 },
    /// A candidate decides, at the server's moment, on what it observed last, and sends the patch.
    Send { candidate: u32 },
    /// A patch that was sent arrives.
    Arrive { send: u32 },
    /// Who sent a patch observes the state that it made.
    Reply { candidate: u32, send: u32 },
}
