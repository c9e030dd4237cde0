//! The lines of a manifest, and the places that they take.
ghost use Rattle.std.specs.Prelude.{◌≡◌, [], ◌∷◌, ◌++◌, ◌+◌, ◌<◌, ◌≤◌, IfErr, IfOk, IfSome, IsOkAnd, MatchOption, OnErr, OnOk, length, Some, None};
ghost use Rattle.std.specs.FinMap.{get};
ghost use Rattle.eden_base.specs.Limits.{greatest_size};
ghost use Rattle.manifest.specs.Manifest.{AreLines, IsDirBefore, most_files, kids_in};
ghost use Rattle.manifest.specs.ManifestText.{line_of_text, IsLineRefusal};
ghost use Rattle.manifest.specs.Placing.{line_at, names_of, parent_of, place_fault, tree_so_far, IsPlaceRefusal};
ghost use Rattle.manifest.specs.Text.{front, last};
ghost use Rattle.manifest.specs.Tree.{file_at, links_from, root, IsFirstFrom};

use crate::entry::ManifestEntry;
use crate::field::is_path;
use crate::line::{kind_of, line_of};
use crate::places::LinePlaces;
use crate::tally::Tally;
use crate::{Content, Line, ManifestFaultKind, PlaceFault};
use directory_index::DirectoryIndex;
use eden_base::{FileId, Kind, Name, NoMemory, cut};
use std::alloc::Global;
use std::marker::Model;

/// The lines of a manifest, and an index of their places, which grows as lines are read.
#[derive(Drop)]
pub struct Lines {
    lines: Vec<Line>,
    /// The file at each place that a line has.
    index: DirectoryIndex,
    /// How many lines stand in each directory.
    kids: Tally,
}

impl Model for Lines {
    ghost use Rattle.std.specs.Prelude.{◌≡◌, List, ℕ};
    ghost use Rattle.manifest.specs.Manifest.{Line, AreLines, kids_in};
    ghost use Rattle.manifest.specs.Tally.{count_of};
    ghost use Rattle.manifest.specs.Places.{standing_of};
    ghost use Rattle.directory_index.specs.Index.{IsIndexOf};
    ghost use Rattle.manifest.specs.Codes.{lines_code};

    ghost Value = { List Line };

    ghost coded = { lines_code };

    ghost view = { λ a. a.lines.items };

    ghost invariant = { λ a. AreLines a.lines.items × IsIndexOf (standing_of a.lines.items) a.index
        × ((dir : ℕ) → count_of a.kids dir ≡ kids_in dir a.lines.items) };
}

impl Lines {
    /// How many lines may follow the line of the commit in a text.
    const MAX_LINES: usize = 65535;

    /// Makes an empty list of lines.
    pub fn new(alloc: Global) -> Lines
        ensures { result ≡ [] }
    {
        Lines {
            lines: Vec::new(alloc),
            index: DirectoryIndex::new(alloc),
            kids: Tally::new(alloc),
        }
    }

    /// Returns how many lines there are.
    pub fn len(&self) -> usize
        ensures len { result ≡ length self.now }
        ensures few { result ≤ most_files }
    {
        self.lines.len()
    }

    /// Returns the lines: that of the file with id 2, and so on.
    pub fn as_slice(&self) -> &[Line]
        ensures lines { result.now ≡ self.now }
        ensures are_lines { AreLines self.now }
    {
        self.lines.as_slice()
    }

    /// Returns the file under a name in a directory, if the lines have one there.
    pub fn child(&self, dir: FileId, name: &[u8]) -> Option<FileId>
        ensures { result ≡ get (links_from 2 self.now) (dir.0, name.now) }
    {
        let places = LinePlaces {
            lines: self.lines.as_slice(),
        };
        self.index.get(&places, dir.0, name).map(FileId)
    }

    /// Returns the first file from the id `least` on that the lines have in the directory `dir`, by rising id, or none.
    /// Looks first whether `least` stands there itself: lines of one directory mostly follow one another.
    pub fn first_from(&self, dir: FileId, least: FileId) -> Option<FileId>
        ensures first { IsFirstFrom (links_from 2 self.now) dir least.0 result }
        ensures few { IfSome result (λ file. file.0 < most_files + 2) }
    {
        if let Some(line) = line_of(self.lines.as_slice(), least)
            && line.dir.0 == dir.0
        {
            return Some(least);
        }
        self.index.first_from(dir.0, least.0).map(FileId)
    }

    /// Returns how many lines stand in a directory.
    pub fn kids(&self, dir: FileId) -> u32
        ensures { result ≡ kids_in dir.0 self.now }
    {
        self.kids.count(dir.0)
    }

    /// Reads one more line of a text, which is given without its LF, and appends it.
    pub fn read(&mut self, alloc: Global, text: &[u8]) -> Result<(), ManifestFaultKind>
        ensures added { OnOk result (IsOkAnd (line_of_text self.old text.now) (λ line.
            self.new ≡ self.old ++ line ∷ [])) }
        ensures refused { IfErr result (IsLineRefusal (line_of_text self.old text.now)) }
    {
        let entry = ManifestEntry::read(text)?;
        let file = Content {
            kind: entry.kind,
            perm: entry.perm,
            size: entry.size,
        };
        match self.add(alloc, Lines::MAX_LINES, entry.path, file) {
            Ok(()) => Ok(()),
            Err(fault) => Err(fault.of_line()),
        }
    }

    /// Appends the line of one more file, at a path from the root, if there are fewer than `most` lines.
    pub fn add(
        &mut self,
        alloc: Global,
        most: usize,
        path: &[u8],
        file: Content,
    ) -> Result<(), PlaceFault>
        requires most { most ≤ most_files }
        requires size { file.size ≤ greatest_size }
        ensures fits { OnOk result (place_fault most self.old path.now ≡ None) }
        ensures added { OnOk result (self.new ≡ self.old ++ line_at self.old path.now file ∷ []) }
        ensures refused { IfErr result (IsPlaceRefusal (place_fault most self.old path.now)) }
        ensures same { OnErr result (self.new ≡ self.old) }
    {
        let (dir, bytes) = self.place(most, path)?;
        let Ok(name) = Name::parse(alloc, bytes) else {
            return Err(PlaceFault::NoMemory);
        };
        let line = Line {
            dir,
            name,
            kind: file.kind,
            perm: file.perm,
            size: file.size,
        };
        match self.push(alloc, line) {
            Ok(()) => Ok(()),
            Err(_) => Err(PlaceFault::NoMemory),
        }
    }

    /// Returns the directory and the name with which `path` ends, if the next line may stand there, or else why not.
    fn place<'a>(&self, most: usize, path: &'a [u8]) -> Result<(FileId, &'a [u8]), PlaceFault>
        ensures fits { OnOk result (place_fault most self.now path.now ≡ None) }
        ensures dir { IfOk result (λ p. parent_of self.now path.now ≡ Some p.0) }
        ensures name { IfOk result (λ p. p.1.now ≡ last (names_of path.now)) }
        ensures before { IfOk result (λ p. IsDirBefore self.now (length self.now) p.0) }
        ensures new { IfOk result (λ p. get (links_from 2 self.now) (p.0.0, p.1.now) ≡ None) }
        ensures room { OnOk result (length self.now < most) }
        ensures refused { IfErr result (λ fault. place_fault most self.now path.now ≡ Some fault) }
    {
        if !is_path(path) {
            return Err(PlaceFault::BadPath);
        }
        let Some((dir, name)) = self.walk(path) else {
            return Err(PlaceFault::NoParent);
        };
        if kind_of(self.lines.as_slice(), dir) != Some(Kind::Dir) {
            return Err(PlaceFault::NoParent);
        }
        if self.child(dir, name).is_some() {
            return Err(PlaceFault::Twice);
        }
        if self.len() >= most {
            return Err(PlaceFault::TooManyFiles);
        }
        Ok((dir, name))
    }

    /// Returns the file to which all names of `path` but the last lead, and the last name. Returns none if they lead
    /// nowhere.
    fn walk<'a>(&self, path: &'a [u8]) -> Option<(FileId, &'a [u8])>
        ensures { let found = file_at (tree_so_far self.now) root (front (names_of path.now)) in
            MatchOption result (found ≡ None) (λ p.
            (found ≡ Some p.0) × (p.1.now ≡ last (names_of path.now))) }
    {
        let mut dir = FileId::ROOT;
        let mut rest = path;
        while let Some((first, after)) = cut(rest, b'/') {
            dir = self.child(dir, first)?;
            rest = after;
        }
        Some((dir, rest))
    }

    /// Appends a line, whose place is new.
    fn push(&mut self, alloc: Global, line: Line) -> Result<(), NoMemory>
        requires room { length self.old < most_files }
        requires size { line.file.size ≤ greatest_size }
        requires dir { IsDirBefore self.old (length self.old) line.dir }
        requires new { get (links_from 2 self.old) (line.dir.0, line.name) ≡ None }
        ensures added { OnOk result (self.new ≡ self.old ++ line ∷ []) }
        ensures same { OnErr result (self.new ≡ self.old) }
    {
        let file = self.len() as u64 + 2;
        self.lines.reserve(1)?;
        self.kids.reserve(file as usize)?;
        let places = LinePlaces {
            lines: self.lines.as_slice(),
        };
        self.index.make_room(alloc, &places)?;
        self.index.insert(line.dir.0, line.name.bytes(), file);
        self.kids.raise(line.dir.0);
        self.lines.push(line).unwrap();
        Ok(())
    }
}
