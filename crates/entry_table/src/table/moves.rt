//! A number's move to another name.
ghost use Rattle.std.specs.Prelude.{◌≡◌, None};
ghost use Rattle.eden_base.specs.First.{changed_where};
ghost use Rattle.entry_table.specs.Entries.{has_number, entry_at, moved_to, AreApart, IsLinked};
ghost use Rattle.entry_table.specs.Table.{IsIn, AreOfKept, file_number};

use super::{Table, index_of};
use crate::kept::Entry;
use eden_base::{Name, Number, Place};

impl Table {
    /// Shows what holds of every table: no two entries stand at one place. Does nothing, and is there for a caller's
    /// proof.
    pub fn places_are_apart(&self)
        ensures apart { AreApart self.now.entries }
    {
        let _next = self.next;
    }

    /// Moves `number` to `name` in the directory `parent`, in the room that `reserve` made, and returns the directory in
    /// which the number stood. The link of the new place stands beside the maps, so the move takes no memory.
    pub fn relink(&mut self, number: Number, parent: Number, name: Name) -> Number
        requires reserved { self.old.spare ≡ 1 }
        requires linked { IsLinked self.old.entries number.0 }
        requires is_free { entry_at self.old.entries parent.0 name ≡ None }
        ensures moved { self.new ≡ record self.old {
          entries = changed_where (has_number number.0) (moved_to parent name) self.old.entries;
          spare = 0;
        } }
        ensures dir { IsIn self.old.entries number.0 result }
        ensures kept { AreOfKept file_number self.new.entries self.new.remembered }
    {
        let Some(index) = index_of(self.slots.as_slice(), number) else {
            unreachable!()
        };
        let slot = &mut self.slots[index];
        let Some(entry) = slot.1.take() else {
            unreachable!()
        };
        let Place::Linked {
            parent: dir,
            name: left,
        } = &entry.place
        else {
            unreachable!()
        };
        self.index.remove(dir.0, left.bytes(), number.0);
        self.index.insert(parent.0, name.bytes(), number.0);
        slot.1 = Some(Entry {
            place: Place::Linked { parent, name },
            count: entry.count,
            file: entry.file,
            note: entry.note,
        });
        self.is_reserved = false;
        *dir
    }
}
