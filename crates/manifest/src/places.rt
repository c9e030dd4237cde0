//! Where the files of a manifest's lines stand.
ghost use Rattle.manifest.specs.Places.{place_of};

use crate::Line;
use crate::line::line_of;
use directory_index::Places;
use eden_base::FileId;

/// The lines of a manifest, by which an index of their places knows where each file stands.
#[derive(Drop)]
pub(crate) struct LinePlaces<'a> {
    pub(crate) lines: &'a [Line],
}

impl Places for LinePlaces<'_> {
    ghost place = { λ places number. place_of places.lines.now number };

    fn stands(&self, number: u64, dir: u64, name: &[u8]) -> bool {
        match line_of(self.lines, FileId(number)) {
            Some(line) => line.dir.0 == dir && line.name.bytes() == name,
            None => false,
        }
    }

    fn name_of(&self, number: u64) -> Option<&[u8]> {
        let line = line_of(self.lines, FileId(number))?;
        Some(line.name.bytes())
    }
}
