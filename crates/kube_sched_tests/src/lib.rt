//! Tests of kube_sched, in a crate of their own: a check of them would prove the functions of that crate once more.
#![tactic(auto)]

#[cfg(test)]
mod tests;
