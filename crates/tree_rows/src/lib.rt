//! Calls of `keys`, `index`, `manifest`, `git`, `tree` and `map`: the values that a case keeps of them, and the words that they share.
#![tactic(auto)]

mod changes;
mod git;
mod index;
mod keys;
mod known;
mod manifests;
mod map;
mod moves;
mod numbers;
mod tree;

use crate::known::KnownIndex;
use checkout::Tree;
use eden_base::{Attr, FileId, MadeKind, Name, Perm};
use git_tree::Objects;
use inode_map::InodeMap;
use key_map::KeyMap;
use manifest::{Manifest, mode_of};
use row_words::{Output, RowFault, Words, chosen, decimal};
use std::alloc::Global;

/// The subject of a call.
#[derive(Clone, Copy)]
enum TreeSubject {
    Keys,
    Index,
    Manifest,
    Git,
    Tree,
    Map,
}

static SUBJECTS: [(&str, TreeSubject); 6] = [
    ("keys", TreeSubject::Keys),
    ("index", TreeSubject::Index),
    ("manifest", TreeSubject::Manifest),
    ("git", TreeSubject::Git),
    ("tree", TreeSubject::Tree),
    ("map", TreeSubject::Map),
];

/// What a call comes to that writes its result itself.
pub type Done = Result<(), RowFault>;

/// The last value of each kind that a row made.
pub struct Trees {
    alloc: Global,
    keys: Option<KeyMap>,
    index: Option<KnownIndex>,
    manifest: Option<Manifest>,
    objects: Option<Objects>,
    tree: Option<Tree>,
    map: Option<InodeMap>,
}

impl Drop for Trees {
    fn drop(self) {
        let Trees {
            alloc: _,
            keys: _,
            index: _,
            manifest: _,
            objects: _,
            tree: _,
            map: _,
        } = self;
    }
}

impl Trees {
    /// Makes none of the values.
    pub fn new(alloc: Global) -> Trees {
        Trees {
            alloc,
            keys: None,
            index: None,
            manifest: None,
            objects: None,
            tree: None,
            map: None,
        }
    }

    /// Makes the call of `subject` that `words` tell.
    pub fn call(&mut self, subject: &[u8], words: &mut Words<'_>, output: &mut Output) -> Done {
        match chosen(&SUBJECTS, subject).ok_or(RowFault::BadRow)? {
            TreeSubject::Keys => keys::call(self, words, output),
            TreeSubject::Index => index::call(self, words, output),
            TreeSubject::Manifest => manifests::call(self, words, output),
            TreeSubject::Git => git::call(self, words, output),
            TreeSubject::Tree => tree::call(self, words, output),
            TreeSubject::Map => map::call(self, words, output),
        }
    }
}

/// Ends the reading of words, and returns the name that was among them.
fn ended(words: &Words<'_>, name: Option<Name>) -> Result<Name, RowFault> {
    words.end()?;
    name.ok_or(RowFault::BadRow)
}

/// Reads the id of a file.
fn file_of(words: &mut Words<'_>) -> FileId {
    FileId(words.number())
}

/// Reads the id of a file, or `none`.
fn file_or_none(words: &mut Words<'_>) -> Option<FileId> {
    let word = words.word();
    if word == b"none".as_slice() {
        return None;
    }
    let file = decimal(word);
    if file.is_none() {
        words.refuse();
    }
    file.map(FileId)
}

/// Reads `file` or `dir`.
fn kind_of(words: &mut Words<'_>) -> MadeKind {
    match words.word() {
        b"dir" => return MadeKind::Dir,
        b"file" => {}
        _ => words.refuse(),
    }
    MadeKind::File
}

/// Reads permissions, in four octal digits.
fn perm_of(words: &mut Words<'_>) -> Perm {
    match mode_of(words.word()) {
        Some(perm) => perm,
        None => {
            words.refuse();
            Perm::DIRECTORY
        }
    }
}

/// Writes a number, or `none`.
fn put(output: &mut Output, number: Option<u64>) {
    match number {
        Some(number) => output.number(number),
        None => output.word("none"),
    }
}

/// Writes the id of a file, or `none`.
fn put_file(output: &mut Output, file: Option<FileId>) {
    put(output, file.map(|file| file.0));
}

/// Writes a kind, permissions, a size and a count of links, or `none`.
fn put_attr(output: &mut Output, attr: Option<Attr>) {
    let Some(attr) = attr else {
        output.word("none");
        return;
    };
    output.word(attr.kind.name());
    output.octal(attr.perm.bits());
    output.number(attr.size);
    output.number(u64::from(attr.nlink));
}
