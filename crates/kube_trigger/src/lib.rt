//! Triggers: streams of requests, made of streams of objects (kube-runtime's `controller::trigger_*`).
#![tactic(auto)]

pub mod trigger;

pub use trigger::{
    Mapped, Own, TriggerOthers, TriggerOwners, TriggerSelf, TriggerWith, With, trigger_others,
    trigger_owners, trigger_owners_shared, trigger_self, trigger_with,
};
