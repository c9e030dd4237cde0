//! What the map's lock protects.
ghost use Rattle.std.specs.Prelude.{◌≡◌, ◌+◌, ◌<◌, ◌≤◌, ◌++◌, ◌∷◌, [], length};
ghost use Rattle.fuse_ops.specs.Loading.{Backs};
ghost use Rattle.journal.specs.Journal.{applied};
ghost use Rattle.workers.specs.Replays.{Replays};

use crate::served_ask::{ServedAsk, serve_one};
use checkout::Backing;
use fuse_ops::Served;
use fuse_wire::Ask;
use journal::Journal;
use std::alloc::Global;
use std::marker::{Brand, Model};
use std::sync::Mutex;
use std::sync::ledger::{Blank, Book, Ledger, Share};

/// A type that names a round. It says the ledger of the round's records, the opening state, and the greatest count of a
/// worker's turns.
pub trait Opening: Ledger {
    ghost use Rattle.std.specs.Prelude.{ℕ};
    ghost use Rattle.fuse_ops.specs.Served.{ServedState};

    /// What was served when the round opened.
    ghost opening: { ServedState };

    /// The greatest count of turns of each worker.
    ghost turns: { ℕ };
}

impl Opening for Brand {
    ghost use Rattle.std.specs.Prelude.{[]};
    ghost use Rattle.fuse_ops.specs.Served.{new_served};

    ghost opening = { new_served (record { commit = []; digest = []; lines = [] }) 1 };

    ghost turns = { 0 };
}

/// The map's lock, which the workers of a round share.
pub type Shared<N, B> = Mutex<LockedMap<N, B>>;

/// The served state, its backing, the journal, and the total of the round's ledger. Contracts see the journal's
/// records. By the invariant, the served state is the replay of the journal from the opening state. Each turn leaves
/// one part of the ledger here, and takes one place in the journal. The journal has a place for each other part but
/// one, so no turn finds it full.
#[derive(Drop)]
pub struct LockedMap<N: Opening, B: Backing + Drop> {
    alloc: Global,
    served: Served,
    backing: B,
    journal: Journal,
    total: Book<N>,
    spent: Share<N>,
}

impl<N: Opening, B: Backing + Drop> Model for LockedMap<N, B> {
    ghost use Rattle.std.specs.Prelude.{◌≡◌, ◌+◌, ◌≤◌, List, length};
    ghost use Rattle.fuse_ops.specs.Loading.{Backs};
    ghost use Rattle.workers.specs.Replays.{Replays};
    ghost use Rattle.journal.specs.declared.journal.Record.{Record};

    ghost Value = { List Record };

    ghost view = { λ locked. locked.journal.records };

    ghost invariant = { λ locked. Replays N.opening locked.journal.records locked.served
        × (locked.served.tree.manifest ≡ N.opening.tree.manifest)
        × Backs (B.content locked.backing) locked.served.tree
        × (locked.total.total ≡ length locked.journal.records)
        × (locked.spent.parts ≡ length locked.journal.records)
        × (locked.spent.amount ≡ 0)
        × (N.parts ≤ length locked.journal.records + locked.journal.room + 1) };
}

/// The lock of a round that opens, and a share with all parts of its ledger, which is to be split among the workers.
#[derive(Drop)]
pub struct Opened<N: Opening, B: Backing + Drop> {
    pub shared: Shared<N, B>,
    pub share: Share<N>,
}

/// What a round leaves under its lock, with the total of its ledger, and the parts that its turns left there.
#[derive(Drop)]
pub struct Parts<N: Opening, B: Backing + Drop> {
    pub served: Served,
    pub backing: B,
    pub journal: Journal,
    pub total: Book<N>,
    pub spent: Share<N>,
}

impl<N: Opening, B: Backing + Drop> LockedMap<N, B> {
    /// Opens a round over what is served, under a ledger that nobody used. The journal has to have room for as many
    /// records as the ledger has parts, less one.
    pub fn open(
        alloc: Global,
        blank: Blank,
        served: Served,
        backing: B,
        journal: Journal,
    ) -> Opened<N, B>
        requires name { blank.name ≡ N.name }
        requires parts { blank.parts ≡ N.parts }
        requires opening { served ≡ N.opening }
        requires backs { Backs (B.content backing) served.tree }
        requires no_record { journal.records ≡ [] }
        requires room { N.parts ≤ journal.room + 1 }
        ensures parts { result.share.parts ≡ N.parts }
        ensures no_amount { result.share.amount ≡ 0 }
    {
        let (total, mut share) = blank.open::<N>();
        let spent = share.empty();
        let shared = Mutex::new(LockedMap {
            alloc,
            served,
            backing,
            journal,
            total,
            spent,
        });
        Opened { shared, share }
    }

    /// Serves `ask`, and counts it in `share`. One part of `share` goes to the lock.
    pub(crate) fn turn(&mut self, ask: Ask, share: &mut Share<N>) -> ServedAsk
        requires parts { 1 < share.old.parts }
        ensures parts { share.new.parts + 1 ≡ share.old.parts }
        ensures position { result.position ≡ length self.old }
        ensures pushes { self.new ≡ self.old ++ applied ask.what result.answer ∷ [] }
        ensures counted { share.new.amount ≡ share.old.amount + 1 }
    {
        share.give(&mut self.spent, 1, 0);
        let turn = serve_one(
            self.alloc,
            &mut self.served,
            &mut self.journal,
            &mut self.backing,
            ask,
        );
        self.total.add(share, 1);
        turn
    }

    /// Returns what the round leaves under the lock.
    pub fn into_parts(self) -> Parts<N, B>
        ensures records { result.journal.records ≡ self }
        ensures replays { Replays N.opening result.journal.records result.served }
        ensures same_manifest { result.served.tree.manifest ≡ N.opening.tree.manifest }
        ensures backs { Backs (B.content result.backing) result.served.tree }
        ensures total { result.total.total ≡ length result.journal.records }
        ensures spent { result.spent.parts ≡ length result.journal.records }
        ensures room { N.parts ≤ length result.journal.records + result.journal.room + 1 }
    {
        let LockedMap {
            alloc: _,
            served,
            backing,
            journal,
            total,
            spent,
        } = self;
        Parts {
            served,
            backing,
            journal,
            total,
            spent,
        }
    }
}
