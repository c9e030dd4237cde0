//! Who waits for which blob, and what is asked next.
ghost use Rattle.std.specs.Prelude.{◌≡◌, ◌<◌, [], length, true, map, position, slice_get, Some, IfOk, IfSome, OnErr};
ghost use Rattle.std.specs.List.{list_any};
ghost use Rattle.std.specs.Map.{lookup};
ghost use Rattle.git_objects.specs.BlobCache.{is_large, same_id};
ghost use Rattle.git_objects.specs.AheadQueue.{joined, rest_of};
ghost use Rattle.git_objects.specs.Desk.{Delivers, FindsBlob, FindsIf, ForgetsAt, IsAsked, Keeps, Looks, begun, came_after, came_by, came_more, has_ticket, is_for, is_next, is_open, is_small, is_there, is_welcome, left_ahead, left_arriving, next_for, next_of, open_from, verdict, with_fault};
ghost use Rattle.git_objects.specs.UnderWay.{is_object, without};

use crate::ahead_queue::AheadQueue;
use crate::blob::Blob;
use crate::blob_cache::{BlobCache, OVERHEAD, is_large};
use crate::duty::Duty;
use crate::fault::ObjectFault;
use crate::object_wait::ObjectWait;
use crate::sought::Sought;
use crate::under_way::UnderWay;
use eden_base::NoMemory;
use std::alloc::Global;
use std::time::Instant;

/// How many bytes a blob has at most that is asked for before somebody reads it.
const MOST_AHEAD: u64 = 262_144;

/// Which part of the bound such a blob counts for at most: 32 of them, which are as many as a reader is ahead of, take an
/// eighth of it.
const PART_AHEAD: u64 = 256;

/// A worker that waits for a blob, by its ticket.
#[derive(Clone, Copy)]
pub(crate) struct Want {
    pub ticket: u64,
    pub sought: Sought,
    /// Why git gave no blob, once that is known.
    pub fault: Option<ObjectFault>,
    pub wait: ObjectWait,
}

/// A blob in a file that git is still writing there, and how many bytes are there.
#[derive(Drop)]
pub(crate) struct Arriving {
    pub blob: Blob,
    pub count: u64,
}

impl Arriving {
    /// Returns the blob if it is the one that `sought` names, and its first `end` bytes are there.
    fn part(&self, sought: Sought, end: u64) -> Result<Option<Blob>, NoMemory>
        ensures part { FindsIf (is_there self.now end sought.object) self.now.blob result }
    {
        if self.is_of(sought) && end <= self.count {
            return match self.blob.share() {
                Ok(blob) => Ok(Some(blob)),
                Err(NoMemory) => Err(NoMemory),
            };
        }
        Ok(None)
    }

    /// Returns whether it is the blob that `sought` names.
    fn is_of(&self, sought: Sought) -> bool
        ensures { result ≡ same_id self.now.blob.object sought.object }
    {
        same_id(&self.blob.object, &sought.object)
    }
}

/// What a worker gets that asks for a blob.
#[derive(Drop)]
pub(crate) enum Asked {
    /// The blob is kept.
    Here(Blob),
    /// The worker waits by this ticket.
    Waits(u64),
}

/// The blobs that are kept, and who waits for others, in the order in which they asked.
#[derive(Drop)]
pub(crate) struct Desk {
    pub cache: BlobCache,
    pub wants: Vec<Want>,
    /// What is asked for though nobody waits for it.
    pub ahead: AheadQueue,
    pub under_way: UnderWay,
    pub arriving: Option<Arriving>,
    pub tickets: u64,
    /// How often something that was wanted came from the process for large blobs, and from the others.
    pub came: Came,
}

/// How often something that was wanted came from the process for large blobs, and from the others.
#[derive(Clone, Copy)]
pub(crate) struct Came {
    pub large: u64,
    pub small: u64,
}

impl Came {
    /// Returns how often something came from the process for large blobs, or from the others.
    pub(crate) fn by(self, is_large: bool) -> u64
        ensures { result ≡ came_by self is_large }
    {
        if is_large { self.large } else { self.small }
    }

    /// Counts once more that something came.
    fn more(self, is_large: bool) -> Came
        ensures { result ≡ came_more self is_large }
    {
        if is_large {
            return Came {
                large: self.large.wrapping_add(1),
                small: self.small,
            };
        }
        Came {
            large: self.large,
            small: self.small.wrapping_add(1),
        }
    }

    /// Counts what a thread with this duty delivers. What was asked for ahead counts for nobody's wait.
    fn after(self, duty: Duty, is_large: bool) -> Came
        ensures { result ≡ came_after self duty is_large }
    {
        if duty.is_ahead() {
            return self;
        }
        self.more(is_large)
    }
}

/// Returns whether a blob of `size` bytes is small enough to be asked for ahead, where blobs are kept within `bound`.
fn is_small(size: u64, bound: u64) -> bool
    ensures { result ≡ is_small size bound }
{
    size <= MOST_AHEAD && size + OVERHEAD <= bound / PART_AHEAD
}

/// Returns whether the two ids are the same.
pub(crate) fn same_id(one: &[u8; 20], other: &[u8; 20]) -> bool
    ensures { result ≡ same_id one.now other.now }
{
    one.as_slice() == other.as_slice()
}

/// Returns the place of the want that has `ticket`, if there is one.
fn place_of(wants: &[Want], ticket: u64) -> Option<usize>
    ensures place { result ≡ position (has_ticket ticket) wants.now }
    ensures within { IfSome result (λ i. i < length wants.now) }
{
    wants.iter().position(|want| want.ticket == ticket)
}

/// Tells what a look gives: the blob, if it was found; else why it can't be had, if that is known, or if the time of the
/// wait is over; else nothing yet.
fn verdict(
    found: Result<Option<Blob>, NoMemory>,
    fault: Option<ObjectFault>,
    is_over: bool,
) -> Option<Result<Blob, ObjectFault>>
    ensures { result ≡ verdict found fault is_over }
{
    match found {
        Ok(Some(blob)) => Some(Ok(blob)),
        Err(NoMemory) => Some(Err(ObjectFault::NoMemory)),
        Ok(None) => match fault {
            Some(fault) => Some(Err(fault)),
            None if is_over => Some(Err(ObjectFault::Late)),
            None => None,
        },
    }
}

impl Desk {
    /// Makes a desk where nobody waits, whose blobs are kept within `bound` bytes.
    pub(crate) fn new(alloc: Global, bound: u64) -> Result<Desk, NoMemory>
        ensures bound { IfOk result (λ desk. desk.cache.bound ≡ bound) }
        ensures nobody { IfOk result (λ desk. desk.wants.items ≡ []) }
    {
        Ok(Desk {
            cache: BlobCache::new(alloc, bound)?,
            wants: Vec::new(alloc),
            ahead: AheadQueue::new(),
            under_way: UnderWay::new(),
            arriving: None,
            tickets: 0,
            came: Came { large: 0, small: 0 },
        })
    }

    /// Asks for a blob at the moment `now`: returns it if it is kept, and else a ticket for it.
    pub(crate) fn ask(&mut self, sought: Sought, now: Option<Instant>) -> Result<Asked, NoMemory>
        ensures asked { IfOk result (IsAsked self.old.cache.kept.entries self.old.tickets sought now
            (came_by self.old.came (is_large sought.size self.old.cache.bound)) self.old.wants.items self.new.wants.items) }
        ensures refused { OnErr result (self.new.wants.items ≡ self.old.wants.items) }
        ensures arriving { self.new.arriving ≡ self.old.arriving }
    {
        if let Some(blob) = self.cache.find(&sought.object)? {
            return Ok(Asked::Here(blob));
        }
        let ticket = self.tickets;
        let wait = ObjectWait::new(now, self.came_for(sought));
        self.wants.push(Want {
            ticket,
            sought,
            fault: None,
            wait,
        })?;
        self.tickets = ticket.wrapping_add(1);
        Ok(Asked::Waits(ticket))
    }

    /// Returns how often something came from the process that fetches the blob `sought`.
    fn came_for(&self, sought: Sought) -> u64
        ensures came { result ≡ came_by self.now.came (is_large sought.size self.now.cache.bound) }
    {
        self.came.by(is_large(sought.size, self.cache.bound))
    }

    /// Returns the blob that `sought` names, if it is kept, or if its first `end` bytes have arrived.
    fn found(&mut self, sought: Sought, end: u64) -> Result<Option<Blob>, NoMemory>
        ensures found { FindsBlob self.old.arriving end sought.object (lookup (same_id sought.object) self.old.cache.kept.entries) result }
        ensures wants { self.new.wants ≡ self.old.wants }
        ensures arriving { self.new.arriving ≡ self.old.arriving }
    {
        if let Some(blob) = self.cache.find(&sought.object)? {
            return Ok(Some(blob));
        }
        match &self.arriving {
            Some(arriving) => arriving.part(sought, end),
            None => Ok(None),
        }
    }

    /// Looks at the moment `now` for the blob `sought` by `ticket`, of which the first `end` bytes are wanted. Where the wait ends
    /// by this look, its ticket is gone.
    pub(crate) fn look(
        &mut self,
        ticket: u64,
        sought: Sought,
        end: u64,
        now: Option<Instant>,
    ) -> Option<Result<Blob, ObjectFault>>
        ensures looks { Looks self.old.arriving self.old.cache.kept.entries ticket sought end now
            (came_by self.old.came (is_large sought.size self.old.cache.bound)) self.old.wants.items result
            self.new.wants.items }
        ensures arriving { self.new.arriving ≡ self.old.arriving }
    {
        let came = self.came_for(sought);
        let found = self.found(sought, end);
        let Some(place) = place_of(self.wants.as_slice(), ticket) else {
            return verdict(found, None, true);
        };
        let want = self.wants[place];
        let wait = want.wait.after(now, came);
        let told = verdict(found, want.fault, wait.is_over());
        if told.is_some() {
            self.wants.remove(place);
            return told;
        }
        self.wants[place].wait = wait;
        None
    }

    /// Forgets the want that has `ticket`: nobody waits by that any more.
    pub(crate) fn forget(&mut self, ticket: u64)
        ensures forgets { ForgetsAt (position (has_ticket ticket) self.old.wants.items) self.old.wants.items
            self.new.wants.items }
        ensures arriving { self.new.arriving ≡ self.old.arriving }
        ensures cache { self.new.cache ≡ self.old.cache }
    {
        if let Some(place) = place_of(self.wants.as_slice(), ticket) {
            self.wants.remove(place);
        }
    }

    /// Asks for a blob that nobody waits for. Returns whether it will be fetched: it is dropped where it is kept, asked for
    /// already, or too large, and where too many are asked for.
    pub(crate) fn ask_ahead(&mut self, sought: Sought) -> bool
        ensures asked { result ≡ is_welcome self.old.cache.bound self.old.cache.kept.entries self.old.under_way.objects.items
            self.old.wants.items self.old.ahead.asks.items sought }
        ensures ahead { self.new.ahead.asks.items ≡ joined result self.old.ahead.asks.items sought }
        ensures wants { self.new.wants ≡ self.old.wants }
        ensures cache { self.new.cache ≡ self.old.cache }
        ensures under_way { self.new.under_way ≡ self.old.under_way }
        ensures arriving { self.new.arriving ≡ self.old.arriving }
        ensures came { self.new.came ≡ self.old.came }
    {
        if !is_small(sought.size, self.cache.bound)
            || !self.is_open(&sought.object)
            || self.is_wanted(&sought.object)
            || self.ahead.has(&sought.object)
        {
            return false;
        }
        self.ahead.push(sought)
    }

    /// Returns whether somebody waits for `object`.
    fn is_wanted(&self, object: &[u8; 20]) -> bool
        ensures { result ≡ list_any (is_for object.now) self.now.wants.items }
    {
        self.wants
            .as_slice()
            .iter()
            .any(|want| same_id(&want.sought.object, object))
    }

    /// Returns whether git may be asked for `object`, which is not kept, and which it is not asked for.
    fn is_open(&self, object: &[u8; 20]) -> bool
        ensures { result ≡ is_open self.now.cache.kept.entries self.now.under_way.objects.items object.now }
    {
        !self.cache.has(object) && !self.under_way.has(object)
    }

    /// Takes what a thread with this duty asks git for next, and notes that git is asked for it.
    pub(crate) fn next(&mut self, duty: Duty) -> Option<Sought>
        ensures next { result ≡ next_for self.old.cache.bound self.old.cache.kept.entries self.old.under_way.objects.items duty
            self.old.wants.items self.old.ahead.asks.items }
        ensures under_way { self.new.under_way.objects.items ≡ begun self.old.under_way.objects.items result }
        ensures ahead { self.new.ahead.asks.items ≡ left_ahead self.old.cache.kept.entries self.old.under_way.objects.items duty
            self.old.ahead.asks.items }
        ensures wants { self.new.wants ≡ self.old.wants }
        ensures cache { self.new.cache ≡ self.old.cache }
        ensures arriving { self.new.arriving ≡ self.old.arriving }
        ensures came { self.new.came ≡ self.old.came }
    {
        if !self.under_way.has_room() {
            return None;
        }
        let sought = match duty {
            Duty::Large => self.next_want(true)?,
            Duty::Small => self.next_want(false)?,
            Duty::Ahead => self.next_ahead()?,
        };
        self.under_way.begin(sought.object);
        Some(sought)
    }

    /// Returns the first large blob, or the first of the others, that somebody waits for without a fault, and that git may be
    /// asked for.
    pub(crate) fn next_want(&self, is_large: bool) -> Option<Sought>
        ensures next { result ≡ next_of self.now.cache.bound self.now.cache.kept.entries self.now.under_way.objects.items is_large
            self.now.wants.items }
    {
        for want in &self.wants {
            if self.is_next(want, is_large) {
                return Some(want.sought);
            }
        }
        None
    }

    /// Returns whether `want` may be asked next by the process for large blobs, or by another one.
    fn is_next(&self, want: &Want, large: bool) -> bool
        ensures { result ≡ is_next self.now.cache.bound self.now.cache.kept.entries self.now.under_way.objects.items large want.now }
    {
        want.fault.is_none()
            && is_large(want.sought.size, self.cache.bound) == large
            && self.is_open(&want.sought.object)
    }

    /// Takes the first blob out that was asked for ahead, and that git may be asked for still. Those before it are dropped.
    fn next_ahead(&mut self) -> Option<Sought>
        ensures next { result ≡ slice_get (open_from self.old.cache.kept.entries self.old.under_way.objects.items
            self.old.ahead.asks.items) 0 }
        ensures ahead { self.new.ahead.asks.items ≡ rest_of (open_from self.old.cache.kept.entries
            self.old.under_way.objects.items self.old.ahead.asks.items) }
        ensures wants { self.new.wants ≡ self.old.wants }
        ensures cache { self.new.cache ≡ self.old.cache }
        ensures under_way { self.new.under_way ≡ self.old.under_way }
        ensures arriving { self.new.arriving ≡ self.old.arriving }
        ensures came { self.new.came ≡ self.old.came }
    {
        for _ask in 0..self.ahead.asks.len() {
            let sought = self.ahead.pop()?;
            if self.is_open(&sought.object) {
                return Some(sought);
            }
        }
        None
    }

    /// Notes that the first `count` bytes of a large blob have arrived.
    pub(crate) fn arrive(&mut self, blob: Blob, count: u64)
        ensures arriving { self.new.arriving ≡ Some (record { blob = blob; count = count }) }
        ensures wants { self.new.wants ≡ self.old.wants }
        ensures cache { self.new.cache ≡ self.old.cache }
        ensures came { self.new.came ≡ came_more self.old.came true }
    {
        self.came = self.came.more(true);
        self.arriving = Some(Arriving { blob, count });
    }

    /// Keeps a blob that git gave, or returns why it gave none or why it can't be kept.
    fn keep(&mut self, fetched: Result<Blob, ObjectFault>) -> Option<ObjectFault>
        ensures keeps { Keeps fetched self.old.cache.bound self.old.cache.kept.entries self.new.cache.kept.entries result }
        ensures bound { self.new.cache.bound ≡ self.old.cache.bound }
        ensures wants { self.new.wants ≡ self.old.wants }
        ensures ahead { self.new.ahead ≡ self.old.ahead }
        ensures under_way { self.new.under_way ≡ self.old.under_way }
        ensures arriving { self.new.arriving ≡ self.old.arriving }
        ensures came { self.new.came ≡ self.old.came }
    {
        match fetched {
            Ok(blob) => {
                if self.cache.keep(blob) {
                    return None;
                }
                Some(ObjectFault::NoMemory)
            }
            Err(fault) => Some(fault),
        }
    }

    /// Notes what git gave to a thread with this duty for `sought`: a blob, which is kept then, or why it gave none. That is
    /// told to all who wait for it, but where the blob was asked for ahead: then it is asked for once more, if somebody waits.
    pub(crate) fn deliver(&mut self, duty: Duty, sought: Sought, fetched: Result<Blob, ObjectFault>)
        ensures delivers { Delivers duty sought fetched self.old.cache.bound self.old.cache.kept.entries
            self.new.cache.kept.entries self.old.wants.items self.new.wants.items }
        ensures under_way { self.new.under_way.objects.items ≡ without
            (position (is_object sought.object) self.old.under_way.objects.items) self.old.under_way.objects.items }
        ensures ahead { self.new.ahead ≡ self.old.ahead }
        ensures arriving { self.new.arriving ≡ left_arriving self.old.arriving sought.object }
        ensures bound { self.new.cache.bound ≡ self.old.cache.bound }
        ensures came { self.new.came ≡ came_after self.old.came duty (is_large sought.size self.old.cache.bound) }
    {
        self.came = self
            .came
            .after(duty, is_large(sought.size, self.cache.bound));
        self.under_way.end(&sought.object);
        if self
            .arriving
            .as_ref()
            .is_some_and(|arriving| arriving.is_of(sought))
        {
            self.arriving = None;
        }
        match self.keep(fetched) {
            Some(fault) if !duty.is_ahead() => {
                set_faults(&mut self.wants, &sought.object, fault);
            }
            _ => {}
        }
    }
}

/// Returns `want`, with the fault if it is for `object`.
fn with_fault(want: Want, object: &[u8; 20], fault: ObjectFault) -> Want
    ensures { result ≡ with_fault object.now fault want }
{
    if !same_id(&want.sought.object, object) {
        return want;
    }
    Want {
        ticket: want.ticket,
        sought: want.sought,
        fault: Some(fault),
        wait: want.wait,
    }
}

/// Notes the fault for all who wait for `object`.
fn set_faults(wants: &mut Vec<Want>, object: &[u8; 20], fault: ObjectFault)
    ensures faults { wants.new.items ≡ map (with_fault object.now fault) wants.old.items }
{
    for place in 0..wants.len() {
        let want = wants[place];
        wants[place] = with_fault(want, object, fault);
    }
}
