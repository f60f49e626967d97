//! The life of one object under the finalizer of one name, as a list of steps.

ghost use Rattle.std.specs.Prelude.{◌≡◌, ◌++◌, ◌∷◌, [], map, true, IfOk, OnOk, option_map, option_copied, slice_get};
ghost use Rattle.kube_final.specs.Lives.{after, applies as applies_in, arrived as arrived_in, beginning, cleans as cleans_in, count_of, decided_on, decision_at, is_among, is_at, is_empty, is_made, is_there, may_follow as may_follow_in, may_send as may_send_in, patched_by, same_names, state_after, state_at, state_of};
ghost use Rattle.kube_final.specs.Pasts.{decided_in, noted, past_in};

use crate::finalizer::{Decision, decided, index_of};
use kube_meta::text::copy_texts;
use kube_meta::{List, NoMemory, Text};
use std::alloc::Global;

/// A step in the life of an object. Numbers name earlier states, decisions and sends, from 0: the state 0 is that before
/// the first step, and each step makes one more.
#[derive(Debug, Drop)]
pub enum LifeStep {
    /// Another party changes the finalizers, and leaves the entries of the name as they are.
    Other { finalizers: List<Text> },
    /// The object is asked to be deleted, which is never taken back.
    RequestDelete,
    /// A decision is made on a state so far.
    Decide { sight: u32 },
    ApplyStarts { decision: u32 },
    CleanupStarts { decision: u32 },
    CleanupEnds { decision: u32, ok: bool },
    /// The patch of a decision is sent.
    Send { decision: u32 },
    /// A patch that was sent arrives.
    Arrive { send: u32 },
}

/// How an object stands.
#[derive(Debug, Drop)]
pub struct LifeState {
    pub finalizers: List<Text>,
    pub deleting: bool,
    pub gone: bool,
}

/// A decision, with the finalizers that were seen.
#[derive(Debug, Drop)]
pub(crate) struct Decided {
    pub decision: Decision,
    pub seen: List<Text>,
}

/// What came before a step.
#[derive(Debug, Drop)]
pub(crate) struct Past {
    before: Vec<LifeState>,
    current: LifeState,
    decisions: Vec<Decided>,
    started: Vec<u32>,
    cleaned: Vec<u32>,
    sent: Vec<u32>,
}

fn state_of(finalizers: List<Text>, deleting: bool) -> LifeState
    ensures { result ≡ state_of finalizers deleting }
{
    let gone = deleting && finalizers.is_empty();
    LifeState {
        finalizers,
        deleting,
        gone,
    }
}

fn copy_state(alloc: Global, state: &LifeState) -> Result<LifeState, NoMemory>
    ensures { IfOk result (λ s. s ≡ state.now) }
{
    Ok(LifeState {
        finalizers: copy_texts(alloc, state.finalizers.as_slice())?,
        deleting: state.deleting,
        gone: state.gone,
    })
}

fn decide_on(alloc: Global, name: &str, state: &LifeState) -> Result<Decided, NoMemory>
    ensures { IfOk result (λ d. decided_in d ≡ decided_on name.now state.now) }
{
    let names = state.finalizers.as_slice();
    let decision = decided(true, state.deleting, index_of(names, name), names);
    Ok(Decided {
        decision,
        seen: copy_texts(alloc, names)?,
    })
}

/// How often the name is among these.
fn count_of(name: &str, names: &[Text]) -> usize
    ensures { result ≡ count_of name.now names.now }
{
    names.iter().filter(|other| other.as_str() == name).count()
}

fn same_names(seen: &[Text], names: &[Text]) -> bool
    ensures { result ≡ same_names seen.now names.now }
{
    seen == names
}

/// Whether the name is there.
fn is_at(name: &str, at: usize, names: &[Text]) -> bool
    ensures { result ≡ is_at name.now (slice_get names.now at) }
{
    match names.get(at) {
        Some(other) => other.as_str() == name,
        None => false,
    }
}

/// Without the one at an index, if the name is there.
fn without(alloc: Global, name: &str, index: u64, names: &[Text]) -> Result<List<Text>, NoMemory>
    ensures { IfOk result (λ l. l ≡ patched_by name.now (Decision.Cleanup index) [] names.now) }
{
    let mut left = Vec::from(copy_texts(alloc, names)?);
    let at = index as usize;
    if is_at(name, at, names) {
        left.remove(at);
    }
    Ok(List::from(left))
}

/// What the patch of a decision makes of finalizers.
fn patched(
    alloc: Global,
    name: &str,
    made: &Decided,
    names: &[Text],
) -> Result<List<Text>, NoMemory>
    ensures { IfOk result (λ l. l ≡ patched_by name.now made.now.decision made.now.seen names.now) }
{
    match made.decision {
        Decision::Cleanup { index } => without(alloc, name, index, names),
        Decision::AddFirst if names.is_empty() => with_name(alloc, name, names),
        Decision::AddMore if same_names(made.seen.as_slice(), names) => {
            with_name(alloc, name, names)
        }
        _ => copy_texts(alloc, names),
    }
}

fn with_name(alloc: Global, name: &str, names: &[Text]) -> Result<List<Text>, NoMemory>
    ensures { IfOk result (λ l. l ≡ names.now ++ name.now ∷ []) }
{
    let mut all = copy_texts(alloc, names)?;
    all.push(Text::new(alloc, name)?)?;
    Ok(all)
}

/// The state after a patch arrived.
fn arrived(
    alloc: Global,
    name: &str,
    state: &LifeState,
    made: Option<&Decided>,
) -> Result<LifeState, NoMemory>
    ensures { IfOk result (λ s. s ≡ arrived_in name.now state.now (option_map decided_in (option_copied made.entry))) }
{
    match made {
        Some(made) if !state.gone => {
            let finalizers = patched(alloc, name, made, state.finalizers.as_slice())?;
            Ok(state_of(finalizers, state.deleting))
        }
        _ => copy_state(alloc, state),
    }
}

fn applies(decision: Decision) -> bool
    ensures { result ≡ applies_in decision }
{
    matches!(decision, Decision::Apply)
}

fn cleans(decision: Decision) -> bool
    ensures { result ≡ cleans_in decision }
{
    matches!(decision, Decision::Cleanup { .. })
}

fn may_send(has_cleaned: bool, decision: Decision) -> bool
    ensures { result ≡ may_send_in has_cleaned decision }
{
    match decision {
        Decision::Cleanup { .. } => has_cleaned,
        Decision::AddFirst | Decision::AddMore => true,
        Decision::Apply | Decision::Nothing | Decision::Unnamed => false,
    }
}

fn is_among(number: u32, numbers: &[u32]) -> bool
    ensures { result ≡ is_among number numbers.now }
{
    numbers.iter().any(|other| *other == number)
}

impl Past {
    /// Before the first step.
    pub fn beginning(alloc: Global) -> Past
        ensures { past_in result ≡ beginning }
    {
        Past {
            before: Vec::new(alloc),
            current: state_of(List::new(alloc), false),
            decisions: Vec::new(alloc),
            started: Vec::new(alloc),
            cleaned: Vec::new(alloc),
            sent: Vec::new(alloc),
        }
    }

    fn state_at(&self, number: u32) -> Option<&LifeState>
        ensures { option_copied result ≡ state_at (past_in self.now) number }
    {
        if number as usize == self.before.len() {
            return Some(&self.current);
        }
        self.before.get(number as usize)
    }

    fn decision_at(&self, number: u32) -> Option<&Decided>
        ensures { option_map decided_in (option_copied result) ≡ decision_at (past_in self.now) number }
    {
        self.decisions.get(number as usize)
    }

    /// Whether a step may follow.
    pub fn may_follow(&self, name: &str, step: &LifeStep) -> bool
        ensures { result ≡ may_follow_in name.now (past_in self.now) step.now }
    {
        match step {
            LifeStep::Other { finalizers } => {
                !self.current.gone
                    && count_of(name, finalizers.as_slice())
                        == count_of(name, self.current.finalizers.as_slice())
            }
            LifeStep::RequestDelete => !self.current.gone,
            LifeStep::Decide { sight } => match self.state_at(*sight) {
                Some(state) => !state.gone,
                None => false,
            },
            LifeStep::ApplyStarts { decision } => match self.decision_at(*decision) {
                Some(made) => applies(made.decision),
                None => false,
            },
            LifeStep::CleanupStarts { decision } => match self.decision_at(*decision) {
                Some(made) => cleans(made.decision),
                None => false,
            },
            LifeStep::CleanupEnds { decision, .. } => {
                is_among(*decision, self.started.as_slice())
            }
            LifeStep::Send { decision } => match self.decision_at(*decision) {
                Some(made) => may_send(is_among(*decision, self.cleaned.as_slice()), made.decision),
                None => false,
            },
            LifeStep::Arrive { send } => (*send as usize) < self.sent.len(),
        }
    }

    // The state after a step.
    fn state_after(&self, alloc: Global, name: &str, step: &LifeStep) -> Result<LifeState, NoMemory>
        ensures { IfOk result (λ s. s ≡ state_after name.now (past_in self.now) step.now) }
    {
        match step {
            LifeStep::Other { finalizers } => {
                let names = copy_texts(alloc, finalizers.as_slice())?;
                Ok(state_of(names, self.current.deleting))
            }
            LifeStep::RequestDelete => {
                let names = copy_texts(alloc, self.current.finalizers.as_slice())?;
                Ok(state_of(names, true))
            }
            LifeStep::Arrive { send } => {
                let made = match self.sent.get(*send as usize) {
                    Some(decision) => self.decision_at(*decision),
                    None => None,
                };
                arrived(alloc, name, &self.current, made)
            }
            _ => copy_state(alloc, &self.current),
        }
    }

    // Notes what a step did beside the state.
    fn note(&mut self, alloc: Global, name: &str, step: &LifeStep) -> Result<(), NoMemory>
        ensures { OnOk result (past_in self.new ≡ noted name.now (past_in self.old) step.now) }
    {
        match step {
            LifeStep::Decide { sight } => {
                let made = match self.state_at(*sight) {
                    Some(state) => decide_on(alloc, name, state)?,
                    None => return Ok(()),
                };
                self.decisions.push(made)?;
            }
            LifeStep::CleanupStarts { decision } => self.started.push(*decision)?,
            LifeStep::CleanupEnds { decision, ok: true } => self.cleaned.push(*decision)?,
            LifeStep::Send { decision } => self.sent.push(*decision)?,
            _ => {}
        }
        Ok(())
    }

    /// Takes a step.
    ///
    /// Errors: `NoMemory`, and the past is spoilt.
    pub fn take(&mut self, alloc: Global, name: &str, step: &LifeStep) -> Result<(), NoMemory>
        ensures { OnOk result (past_in self.new ≡ after name.now (past_in self.old) step.now) }
    {
        let next = self.state_after(alloc, name, step)?;
        self.note(alloc, name, step)?;
        let before = std::mem::replace(&mut self.current, next);
        self.before.push(before)?;
        Ok(())
    }
}
