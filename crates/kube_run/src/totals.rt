//! The totals of a run's records, and the line that tells them.

ghost use Rattle.std.specs.Prelude.{◌≡◌, ◌+◌, ◌++◌, ◌∷◌, [], List, IfOk, length, map};
ghost use Rattle.std.specs.List.{filter, filter_map};
ghost use Rattle.kube_meta.specs.Reading.{ObjectData};
ghost use Rattle.kube_model.specs.History.{TurnRecord};
ghost use Rattle.kube_object.specs.Named.{named_type};
ghost use Rattle.kube_turn.specs.Records.{record_of};
ghost use Rattle.kube_turn.specs.Views.{exchange_of, taken_of};
ghost use Rattle.kube_text.specs.Shown.{ShowsMembers, ShowsFront, tokens_of};
ghost use Rattle.kube_run.specs.GeneratedRun.{is_missing, references_in, requested, totals_of};
ghost use Rattle.kube_run.specs.Summary.{totals_data, totals_members, totals_text};
ghost use Rattle.kube_run.specs.declared.totals.Totals as totals;

use json::Writer;
use kube_meta::NoMemory;
use kube_object::ScriptObject;
use kube_text::record::ScriptRecord;
use kube_text::show::{Show, member};
use kube_turn::{SourceExchange, Taken};
use std::alloc::{AllocError, Global};

/// The totals of a run's records.
#[derive(Clone, Copy, Debug, PartialEq, Eq)]
pub struct Totals {
    /// How often a source was asked.
    pub asks: u64,
    /// How many reconciles ended.
    pub finished: u64,
    /// How many references were taken under which nothing was stored.
    pub missing: u64,
    /// How many objects are stored at the end.
    pub objects: u64,
    /// How many requests the exchanges made.
    pub requests: u64,
    /// How many objects were handed over.
    pub started: u64,
}

impl Totals {
    /// Those of no record.
    pub fn none() -> Totals
        ensures { result ≡ totals_of [] 0 }
    {
        Totals {
            asks: 0,
            finished: 0,
            missing: 0,
            objects: 0,
            requests: 0,
            started: 0,
        }
    }

    /// With those of one more record.
    ///
    /// # Errors
    ///
    /// `NoMemory` where a sum is past the greatest number: all that is counted was held in memory.
    pub fn with(self, made: &ScriptRecord) -> Result<Totals, NoMemory>
        ensures { (rs : List (TurnRecord ObjectData)) → self ≡ totals_of rs 0 → IfOk result (λ t. t ≡ totals_of (rs ++ record_of named_type made.now ∷ []) 0) }
    {
        let (started, missing) = count_taken(made.taken.as_slice())?;
        Ok(Totals {
            asks: sum(self.asks, made.exchanges.len())?,
            finished: sum(self.finished, made.finished.len())?,
            missing: sum(self.missing, missing)?,
            objects: self.objects,
            requests: sum(self.requests, count_requests(made.exchanges.as_slice())?)?,
            started: sum(self.started, started)?,
        })
    }
}

/// How many requests exchanges made.
fn count_requests(exchanges: &[SourceExchange<ScriptObject>]) -> Result<usize, NoMemory>
    ensures { IfOk result (λ n. n ≡ requested (map (exchange_of named_type) exchanges.now)) }
{
    let mut requests = 0;
    for exchange in exchanges {
        requests = add(requests, exchange.requests.len())?;
    }
    Ok(requests)
}

/// How many of these were handed over, and how many not found.
fn count_taken(all: &[Taken<ScriptObject>]) -> Result<(usize, usize), NoMemory>
    ensures started { IfOk result (λ p. p.0 ≡ length (references_in (filter_map (taken_of named_type) all.now))) }
    ensures missing { IfOk result (λ p. p.1 ≡ length (filter is_missing (filter_map (taken_of named_type) all.now))) }
{
    let mut started = 0;
    let mut missing = 0;
    for taken in all {
        match taken {
            Taken::Started { .. } => started = add(started, 1)?,
            Taken::NotFound { .. } => missing = add(missing, 1)?,
            Taken::Nothing => {}
        }
    }
    Ok((started, missing))
}

/// The sum of two counts.
fn add(a: usize, b: usize) -> Result<usize, NoMemory>
    ensures { IfOk result (λ c. c ≡ a + b) }
{
    match a.checked_add(b) {
        Some(sum) => Ok(sum),
        None => Err(NoMemory),
    }
}

/// A total with a count.
fn sum(total: u64, count: usize) -> Result<u64, NoMemory>
    ensures { IfOk result (λ c. c ≡ total + count) }
{
    match total.checked_add(count as u64) {
        Some(sum) => Ok(sum),
        None => Err(NoMemory),
    }
}

impl Show for Totals {
    ghost Seen = { totals.Totals };

    ghost seen = { λ t. t };

    ghost data_of = { totals_data };

    fn show(&self, alloc: Global, out: &mut Writer) -> Result<(), AllocError> {
        out.begin_object()?;
        show_members(alloc, out, self)?;
        out.end_object()?;
        Ok(())
    }
}

/// The members of the line, by the bytes of their names.
fn show_members(alloc: Global, out: &mut Writer, totals: &Totals) -> Result<(), AllocError>
    ensures before { out.new.before ≡ out.old.before }
    ensures members { ShowsMembers result out.old out.new (totals_members totals.now) }
    ensures front { ShowsFront result out.old out.new (totals_members totals.now) }
{
    member(alloc, out, "asks", &totals.asks)?;
    member(alloc, out, "finished", &totals.finished)?;
    member(alloc, out, "missing", &totals.missing)?;
    member(alloc, out, "objects", &totals.objects)?;
    member(alloc, out, "requests", &totals.requests)?;
    member(alloc, out, "started", &totals.started)?;
    Ok(())
}

/// The line of totals, with its line feed.
///
/// Errors: want of memory.
#[tactic(auto, using(kube_text::proofs::Text::closed))]
pub fn totals_line(alloc: Global, totals: &Totals) -> Result<Vec<u8>, AllocError>
    ensures { IfOk result (λ line. line.items ≡ totals_text totals.now) }
{
    let mut writer = Writer::new(Vec::new(alloc));
    totals.show(alloc, &mut writer)?;
    let mut line = writer.into_inner();
    line.push(b'\n')?;
    Ok(line)
}
