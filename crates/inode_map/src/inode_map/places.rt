//! Numbers that lose their names, and numbers that move to other names.
ghost use Rattle.std.specs.Prelude.{◌≡◌, None, false};
ghost use Rattle.std.specs.List.{list_any};
ghost use Rattle.eden_base.specs.declared.number.FileId.{FileId};
ghost use Rattle.entry_table.specs.Entries.{entry_at, is_kid_of, AreNumbers, IsLinked};
ghost use Rattle.inode_map.specs.InodeMap.{displaced, relinked, unlinked, MayGiveWay};

use super::{InodeMap, prune};
use eden_base::{FileId, Name, Number};
use entry_table::Table;

impl InodeMap {
    /// Takes the name of `number` away: from then on a mark says that the number names `file`. Removes the entry of its
    /// directory if that then has count 0 and no child, and then each such entry above it.
    pub fn unlink(&mut self, number: Number, file: FileId)
        requires linked { IsLinked self.old.entries number.0 }
        requires no_kids { list_any (is_kid_of number.0) self.old.entries ≡ false }
        ensures unlinked { self.new ≡ unlinked self.old number.0 file }
    {
        let dir = self.table.unlink(number, file);
        prune(&mut self.table, &mut self.loaded, dir);
    }

    /// Moves `number` to `name` in the directory `parent`, in the room that `reserve` made. If an entry stands there, a
    /// mark says from then on that its number names `replaced`. Only then removes the entry of the directory that
    /// `number` left, if it has count 0 and no child, and then each such entry above it. Takes no memory.
    pub fn relink(&mut self, number: Number, parent: Number, name: Name, replaced: Option<FileId>)
        requires room { self.old.spare ≡ 1 }
        requires linked { IsLinked self.old.entries number.0 }
        requires gives_way { MayGiveWay self.old.entries number.0 replaced
            (entry_at self.old.entries parent.0 name) }
        ensures relinked { self.new ≡ relinked self.old number.0 parent name replaced }
    {
        displace(&mut self.table, parent, &name, replaced);
        let left = self.table.relink(number, parent, name);
        prune(&mut self.table, &mut self.loaded, left);
    }
}

/// Takes `name` in the directory `parent` away from the number that stands there, if one does: a mark says from then on
/// that it names `file`.
fn displace(table: &mut Table, parent: Number, name: &Name, file: Option<FileId>)
    requires numbers { AreNumbers 2 table.old.next table.old.entries }
    requires given { file ≡ None → entry_at table.old.entries parent.0 name.now ≡ None }
    ensures displaced { table.new ≡ record table.old {
      entries = displaced table.old.entries parent.0 name.now file;
    } }
    ensures free { entry_at table.new.entries parent.0 name.now ≡ None }
{
    table.places_are_apart();
    let Some(file) = file else {
        return;
    };
    let Some(number) = table.find(parent, name) else {
        return;
    };
    table.unlink(number, file);
}
