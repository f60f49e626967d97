//! How far the subscribers of a ring lag behind, by their numbers.

ghost use Rattle.std.specs.Prelude.{◌≡◌, ◌<◌, ◌==◌, ◌++◌, ◌∷◌, [], true, false, not, Some, None, IfOk, IfSome, OnOk, OnErr, length, map, vec_len, vec_capacity, slice_get, slice_set, is_some, min};
ghost use Rattle.std.specs.List.{list_any, prefix_len, insert};
ghost use Rattle.std.specs.Option.{option_flatten};
ghost use Rattle.kube_reflect.specs.Subscribers.{free_number, placed};
ghost use Rattle.kube_reflect.specs.Lags.{reaches, reaches_at, one_more, raised_all};

use kube_meta::NoMemory;
use std::alloc::Global;
use std::marker::Model;

/// How many references each subscriber has not taken, by its number, and in order the numbers of those that have not
/// left. What is done for each subscriber goes through these numbers alone.
#[derive(Drop)]
pub struct Lags {
    places: Vec<Option<usize>>,
    live: Vec<usize>,
}

impl Model for Lags {
    ghost use Rattle.std.specs.Prelude.{◌≡◌, ℕ, List, Option};
    ghost use Rattle.kube_reflect.specs.Lags.{numbers_from};

    ghost Value = { List (Option ℕ) };

    ghost view = { λ l. l.places.items };

    ghost invariant = { λ l. l.live.items ≡ numbers_from 0 l.places.items };
}

/// The lag at a number.
fn lag_at(places: &[Option<usize>], number: usize) -> Option<usize>
    ensures lag { result ≡ option_flatten (slice_get places.now number) }
    ensures place { IfSome result (λ _. number < length places.now) }
{
    match places.get(number) {
        Some(lag) => *lag,
        None => None,
    }
}

/// Whether one at these numbers lags by so many.
fn any_reaches(places: &[Option<usize>], numbers: &[usize], room: u32) -> bool
    ensures { result ≡ list_any (reaches_at room places.now) numbers.now }
{
    numbers.iter().any(|number| match lag_at(places, *number) {
        Some(lag) => room as usize <= lag,
        None => false,
    })
}

/// Each at these numbers is one more.
fn raise_all(places: &mut [Option<usize>], numbers: &[usize])
    ensures { places.new ≡ raised_all numbers.now places.old }
{
    for i in 0..numbers.len() {
        let number = numbers[i];
        if let Some(lag) = lag_at(places, number) {
            places[number] = Some(lag.saturating_add(1));
        }
    }
}

/// The first number that is nobody's.
fn free_number(places: &[Option<usize>]) -> usize
    ensures { result ≡ free_number places.now }
{
    places.iter().take_while(|lag| lag.is_some()).count()
}

/// How many numbers come before this one.
fn rank(numbers: &[usize], number: usize) -> usize
    ensures { result ≡ prefix_len (λ m. not (m == number)) numbers.now }
{
    numbers.iter().take_while(|other| **other != number).count()
}

/// Writes a lag at the first number that is nobody's.
fn write(places: &mut Vec<Option<usize>>, number: usize, lag: usize)
    requires number { number ≡ free_number places.old.items }
    requires room { vec_len places.old < vec_capacity places.old }
    ensures { places.new.items ≡ placed places.old.items lag }
{
    if number < places.len() {
        places[number] = Some(lag);
    } else {
        places.push_reserved(Some(lag));
    }
}

impl Lags {
    /// Nobody's.
    pub fn new(alloc: Global) -> Lags
        ensures { result ≡ [] }
    {
        Lags {
            places: Vec::new(alloc),
            live: Vec::new(alloc),
        }
    }

    /// How far a subscriber lags; none where it has left, or never was.
    pub fn lag(&self, number: usize) -> Option<usize>
        ensures { result ≡ option_flatten (slice_get self.now number) }
    {
        lag_at(&self.places, number)
    }

    /// Whether one lags by so many.
    pub fn any_reaches(&self, room: u32) -> bool
        ensures { result ≡ list_any (reaches room) self.now }
    {
        any_reaches(&self.places, &self.live, room)
    }

    /// Whether one is there.
    pub fn any_there(&self) -> bool
        ensures { result ≡ list_any is_some self.now }
    {
        !self.live.is_empty()
    }

    /// Adds a subscriber with a lag, and answers its number.
    pub fn add(&mut self, lag: usize) -> Result<usize, NoMemory>
        ensures ok { OnOk result (self.new ≡ placed self.old lag) }
        ensures number { IfOk result (λ number. number ≡ free_number self.old) }
        ensures err { OnErr result (self.new ≡ self.old) }
    {
        let number = free_number(&self.places);
        self.places.reserve(1)?;
        self.live.insert(number, number)?;
        write(&mut self.places, number, lag);
        Ok(number)
    }

    /// Writes how far a subscriber lags.
    pub fn set(&mut self, number: usize, lag: usize)
        requires { is_some (option_flatten (slice_get self.old number)) ≡ true }
        ensures { self.new ≡ slice_set self.old number (Some lag) }
    {
        self.places[number] = Some(lag);
    }

    /// A subscriber has left.
    pub fn leave(&mut self, number: usize)
        requires { is_some (option_flatten (slice_get self.old number)) ≡ true }
        ensures { self.new ≡ slice_set self.old number None }
    {
        let place = rank(&self.live, number);
        self.live.remove(place);
        self.places[number] = None;
    }

    /// Each that is there is one more, none of which lags by so many.
    pub fn raise(&mut self, room: u32)
        requires { list_any (reaches room) self.old ≡ false }
        ensures { self.new ≡ map one_more self.old }
    {
        raise_all(&mut self.places, &self.live);
    }
}
