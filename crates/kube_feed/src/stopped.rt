//! What ends a turn early.

use kube_asks::AskFault;
use kube_meta::NoMemory;
use kube_step::BadTurn;

/// What ends a turn early: it is refused, and nothing has changed; or it is broken off.
#[derive(Clone, Copy, Debug, PartialEq, Eq)]
pub enum Stopped {
    Refused(BadTurn),
    Faulted(AskFault),
}

impl From<AskFault> for Stopped {
    ghost use Rattle.std.specs.Prelude.{◌≡◌};
    ghost use Rattle.kube_feed.specs.declared.stopped.Stopped.{Stopped};

    ghost from_gives = { λ f e. e ≡ Stopped.Faulted f };

    fn from(fault: AskFault) -> Stopped {
        Stopped::Faulted(fault)
    }
}

impl From<NoMemory> for Stopped {
    ghost use Rattle.std.specs.Prelude.{◌≡◌};
    ghost use Rattle.kube_asks.specs.declared.asks.AskFault.{AskFault};
    ghost use Rattle.kube_feed.specs.declared.stopped.Stopped.{Stopped};

    ghost from_gives = { λ _ e. e ≡ Stopped.Faulted AskFault.NoMemory };

    fn from(_error: NoMemory) -> Stopped {
        Stopped::Faulted(AskFault::NoMemory)
    }
}
