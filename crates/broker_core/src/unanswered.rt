//! The asks that have no reply.
ghost use Rattle.std.specs.Prelude.{◌≡◌, ◌<◌, [], ◌∷◌, ◌++◌, length, All, OnOk, OnErr, None, MatchOption};
ghost use Rattle.std.specs.Prelude.{option_map};
ghost use Rattle.std.specs.Option.{IfSome};
ghost use Rattle.eden_base.specs.First.{first_where, without_where, IsFirstPlace};
ghost use Rattle.broker_core.specs.Traffic.{is_of};
ghost use Rattle.broker_core.specs.Rising.{IsRising};
ghost use Rattle.broker_core.specs.Places.{asks_at, is_place_of, PlacesRise, StartsFilled, EndsFilled, DropsGaps};

use eden_base::NoMemory;
use fuse_wire::Form;
use std::alloc::Global;
use std::collections::VecDeque;
use std::marker::Model;

/// A place in the queue: that of an ask, or the gap that an answered one left.
#[derive(Clone, Copy)]
struct QueuePlace {
    unique: u64,
    /// The form of the answer. A gap has none.
    form: Option<Form>,
}

/// Each ask without a reply: its unique, and the form of its answer. Contracts see a list of both, in which uniques
/// rise.
#[derive(Drop)]
pub(crate) struct Unanswered {
    /// The places in the order of their uniques. Neither the first nor the last is a gap.
    places: VecDeque<QueuePlace>,
    /// How many places are gaps.
    gaps: usize,
}

impl Model for Unanswered {
    ghost use Rattle.std.specs.Prelude.{ℕ, List};
    ghost use Rattle.fuse_wire.specs.declared.form.Form.{Form};
    ghost use Rattle.broker_core.specs.Places.{asks_at, IsInOrder};

    ghost Value = { List (ℕ × Form) };

    ghost view = { λ u. asks_at u.places.items };

    ghost invariant = { IsInOrder };
}

impl Unanswered {
    /// Makes an empty list.
    pub(crate) fn new(alloc: Global) -> Unanswered
        ensures none { result ≡ [] }
        ensures rising { IsRising result }
    {
        Unanswered {
            places: VecDeque::new(alloc),
            gaps: 0,
        }
    }

    /// Returns how many asks there are.
    pub(crate) fn len(&self) -> usize
        ensures len { result ≡ length self.now }
    {
        self.places.len() - self.gaps
    }

    /// Appends an ask.
    pub(crate) fn push(&mut self, unique: u64, form: Form) -> Result<(), NoMemory>
        requires later { All (λ asked. asked.0 < unique) self.old }
        ensures pushed { OnOk result (self.new ≡ self.old ++ (unique, form) ∷ []) }
        ensures unchanged { OnErr result (self.new ≡ self.old) }
        ensures rising { IsRising self.new }
    {
        let form = Some(form);
        self.places.push_back(QueuePlace { unique, form })?;
        Ok(())
    }

    /// Returns the form of the answer to the ask with this unique, if there is such an ask.
    pub(crate) fn form_of(&self, unique: u64) -> Option<Form>
        ensures form { result ≡ option_map (λ asked. asked.1) (first_where (is_of unique) self.now) }
    {
        let index = index_of(&self.places, unique)?;
        self.places[index].form
    }

    /// Removes the ask with this unique, if there is such an ask. Takes no memory. Its place stays as a gap until it is
    /// the first or the last one, or until gaps outnumber asks. So a removal moves less than one other ask on average.
    pub(crate) fn remove(&mut self, unique: u64)
        ensures removed { self.new ≡ without_where (is_of unique) self.old }
        ensures rising { IsRising self.new }
    {
        let Some(index) = index_of(&self.places, unique) else {
            return;
        };
        if self.places[index].form.is_none() {
            return;
        }
        let asks = self.places.len() - self.gaps - 1;
        self.places[index].form = None;
        drop_gaps(&mut self.places, asks);
        self.gaps = self.places.len() - asks;
    }
}

/// Returns the index of the place with this unique, if there is such a place. Looks first where it stands if no unique
/// before it is missing, and else searches by halving.
fn index_of(places: &VecDeque<QueuePlace>, unique: u64) -> Option<usize>
    requires rising { PlacesRise places.now.items }
    ensures { MatchOption result (first_where (is_place_of unique) places.now.items ≡ None)
        (IsFirstPlace (is_place_of unique) places.now.items) }
{
    if let Some(index) = dense_index_of(places, unique) {
        return Some(index);
    }
    match places.binary_search_by_key(&unique, |place| place.unique) {
        Ok(index) => Some(index),
        Err(_) => None,
    }
}

/// Returns the index of the place with this unique, if there is one and no unique between the first one and this one
/// is missing.
fn dense_index_of(places: &VecDeque<QueuePlace>, unique: u64) -> Option<usize>
    requires rising { PlacesRise places.now.items }
    ensures { IfSome result (IsFirstPlace (is_place_of unique) places.now.items) }
{
    let first = places.front()?;
    let index = unique.checked_sub(first.unique)? as usize;
    let place = places.get(index)?;
    if place.unique == unique {
        return Some(index);
    }
    None
}

/// Drops the gaps before the first and behind the last of `asks` asks, and all other gaps if they outnumber the asks.
/// Takes no memory.
fn drop_gaps(places: &mut VecDeque<QueuePlace>, asks: usize)
    requires counted { asks ≡ length (asks_at places.old.items) }
    ensures dropped { DropsGaps places.old.items places.new.items }
    ensures first { StartsFilled places.new.items }
    ensures last { EndsFilled places.new.items }
{
    drop_first_gaps(places);
    drop_last_gaps(places);
    if places.len() - asks <= asks {
        return;
    }
    places.retain(|place| place.form.is_some());
}

/// Drops the gaps before the first ask.
fn drop_first_gaps(places: &mut VecDeque<QueuePlace>)
    ensures dropped { DropsGaps places.old.items places.new.items }
    ensures first { StartsFilled places.new.items }
{
    while let Some(place) = places.front() {
        if place.form.is_some() {
            return;
        }
        let _gap = places.pop_front();
    }
}

/// Drops the gaps behind the last ask.
fn drop_last_gaps(places: &mut VecDeque<QueuePlace>)
    ensures dropped { DropsGaps places.old.items places.new.items }
    ensures last { EndsFilled places.new.items }
{
    while let Some(place) = places.back() {
        if place.form.is_some() {
            return;
        }
        let _gap = places.pop_back();
    }
}
