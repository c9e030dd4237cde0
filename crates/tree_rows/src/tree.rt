//! `tree new`: makes the tree of the manifest.
//! `tree with CHANGES`: makes the tree of the manifest with changes, or tells the position of the first that is bad.
//! `tree create DIR NAME KIND PERM`: makes a file, and tells its id.
//! `tree remove DIR NAME`: removes a name, and tells its file.
//! `tree rename DIR NAME TO_DIR TO_NAME`: moves a file, and tells the file that stood at the new name.
//! These three tell `refused` where a condition of the call does not hold, and then make no call.
//! `tree child DIR NAME`: the file that a name gives.
//! `tree first DIR LEAST`: the first file of a directory from an id on, and its name.
//! `tree above FILE OTHER`: whether a file is another one, or stands above it.
//! `tree attr FILE`: the kind, the permissions, the size and the count of links of a file. `tree kind FILE`: its kind.
//! `tree tell FILE`: the count of links of a file, its kind, `linked` if it stands under a name, and `empty` if it is an
//! empty directory. `tree empty FILE`: whether a file is that.
//! `tree next`: the id that the next made file gets. `tree commit`: the commit.
//! `tree changes`: the changes of the tree. `tree names`: how many names changed, and which. `tree made`: how many files
//! were made.
//! `tree again`, `tree names_again`: makes another tree of the changes of the tree, and tells the changes of that one.
//! `tree root`: the id of the root, its inode number, and its permissions.
use crate::changes::{Part, changes_of, put_changes};
use crate::moves::{create, remove, rename};
use crate::{Done, Trees, ended, file_of, put_attr, put_file};
use checkout::{ChangeFault, Tree};
use eden_base::{FileId, Number, Perm};
use row_words::{Output, RowFault, Words, chosen};

/// The calls of more than the tree: those that make one, and the one that asks none.
#[derive(Clone, Copy)]
enum TreeCall {
    New,
    With,
    Again(Part),
    Root,
}

static TREE_CALLS: [(&str, TreeCall); 5] = [
    ("new", TreeCall::New),
    ("with", TreeCall::With),
    ("again", TreeCall::Again(Part::All)),
    ("names_again", TreeCall::Again(Part::Names)),
    ("root", TreeCall::Root),
];

/// The calls that ask a tree for a file.
#[derive(Clone, Copy)]
enum FileCall {
    Attr,
    Kind,
    Tell,
    Empty,
    Above,
}

/// The calls of a tree.
#[derive(Clone, Copy)]
enum OnCall {
    Create,
    Remove,
    Rename,
    Child,
    First,
    File(FileCall),
    Next,
    Commit,
    Changes(Part),
}

static ON_CALLS: [(&str, OnCall); 15] = [
    ("create", OnCall::Create),
    ("remove", OnCall::Remove),
    ("rename", OnCall::Rename),
    ("child", OnCall::Child),
    ("first", OnCall::First),
    ("above", OnCall::File(FileCall::Above)),
    ("attr", OnCall::File(FileCall::Attr)),
    ("kind", OnCall::File(FileCall::Kind)),
    ("tell", OnCall::File(FileCall::Tell)),
    ("empty", OnCall::File(FileCall::Empty)),
    ("next", OnCall::Next),
    ("commit", OnCall::Commit),
    ("changes", OnCall::Changes(Part::All)),
    ("names", OnCall::Changes(Part::Names)),
    ("made", OnCall::Changes(Part::Made)),
];

/// Makes the tree of the manifest.
fn new(trees: &mut Trees, output: &mut Output) -> Done {
    let manifest = trees.manifest.as_ref().ok_or(RowFault::BadRow)?;
    let tree = Tree::of(trees.alloc, manifest)?;
    trees.tree = Some(tree);
    output.word("ok");
    Ok(())
}

/// Tells why changes make no tree.
fn tell_fault(fault: ChangeFault, output: &mut Output) -> Done {
    let ChangeFault::BadChange(place) = fault else {
        return Err(RowFault::NoMemory);
    };
    output.word("BadChange");
    output.number(place as u64);
    Ok(())
}

/// Makes the tree of the manifest with changes.
fn with(trees: &mut Trees, words: &mut Words<'_>, output: &mut Output) -> Done {
    let manifest = trees.manifest.as_ref().ok_or(RowFault::BadRow)?;
    let changes = changes_of(trees.alloc, words)?;
    match Tree::with_changes(trees.alloc, manifest, &changes) {
        Ok(tree) => {
            trees.tree = Some(tree);
            output.word("ok");
            Ok(())
        }
        Err(fault) => tell_fault(fault, output),
    }
}

/// Makes another tree of the changes of the tree, and tells the changes of that one as `put_changes` does.
fn again(trees: &Trees, part: Part, output: &mut Output) -> Done {
    let manifest = trees.manifest.as_ref().ok_or(RowFault::BadRow)?;
    let changes = trees.tree.as_ref().ok_or(RowFault::BadRow)?.changes()?;
    match Tree::with_changes(trees.alloc, manifest, &changes) {
        Ok(other) => put_changes(&other, part, output),
        Err(fault) => tell_fault(fault, output),
    }
}

/// Tells the file that a name gives.
fn child(tree: &Tree, words: &mut Words<'_>, output: &mut Output) -> Done {
    let dir = file_of(words);
    let name = words.name();
    let name = ended(words, name)?;
    put_file(output, tree.child(dir, &name));
    Ok(())
}

/// Tells the first file of a directory from an id on, and its name.
fn first(tree: &Tree, words: &mut Words<'_>, output: &mut Output) -> Done {
    let dir = file_of(words);
    let least = file_of(words);
    words.end()?;
    match tree.child_from(dir, least) {
        Some(child) => {
            output.number(child.file.0);
            output.bytes(child.name.bytes());
        }
        None => output.word("none"),
    }
    Ok(())
}

/// Writes the kind of a file, or `none`.
fn put_kind(tree: &Tree, file: FileId, output: &mut Output) {
    match tree.kind(file) {
        Some(kind) => output.word(kind.name()),
        None => output.word("none"),
    }
}

/// Writes the count of links and the kind of a file, whether it is linked, and whether it is an empty directory.
fn put_tell(tree: &Tree, file: FileId, output: &mut Output) {
    if let Some(attr) = tree.attr(file) {
        output.number(u64::from(attr.nlink));
    }
    put_kind(tree, file, output);
    if tree.is_linked(file) {
        output.word("linked");
    }
    if tree.is_empty_dir(file) {
        output.word("empty");
    }
}

/// Makes a call that asks for files.
fn ask_file(tree: &Tree, call: FileCall, words: &mut Words<'_>, output: &mut Output) -> Done {
    let file = file_of(words);
    match call {
        FileCall::Attr => put_attr(output, tree.attr(file)),
        FileCall::Kind => put_kind(tree, file, output),
        FileCall::Tell => put_tell(tree, file, output),
        FileCall::Empty => output.flag(tree.is_empty_dir(file)),
        FileCall::Above => output.flag(tree.is_at_or_above(file, file_of(words))),
    }
    words.end()
}

/// Writes the ids of the root and its permissions.
fn root(output: &mut Output) -> Done {
    output.number(FileId::ROOT.0);
    output.number(Number::ROOT.0);
    output.octal(Perm::DIRECTORY.bits);
    Ok(())
}

/// Makes a call on a tree.
fn call_on(tree: &mut Tree, word: &[u8], words: &mut Words<'_>, output: &mut Output) -> Done {
    match chosen(&ON_CALLS, word).ok_or(RowFault::BadRow)? {
        OnCall::Create => return create(tree, words, output),
        OnCall::Remove => return remove(tree, words, output),
        OnCall::Rename => return rename(tree, words, output),
        OnCall::Child => return child(tree, words, output),
        OnCall::First => return first(tree, words, output),
        OnCall::File(call) => return ask_file(tree, call, words, output),
        OnCall::Changes(part) => return put_changes(tree, part, output),
        OnCall::Commit => output.hex(&tree.commit()),
        OnCall::Next => output.number(tree.next_file().0),
    }
    words.end()
}

/// Makes a call of trees.
pub(crate) fn call(trees: &mut Trees, words: &mut Words<'_>, output: &mut Output) -> Done {
    let word = words.word();
    match chosen(&TREE_CALLS, word) {
        Some(TreeCall::New) => new(trees, output),
        Some(TreeCall::With) => with(trees, words, output),
        Some(TreeCall::Again(part)) => again(trees, part, output),
        Some(TreeCall::Root) => root(output),
        None => match trees.tree.as_mut() {
            Some(tree) => call_on(tree, word, words, output),
            None => Err(RowFault::BadRow),
        },
    }
}
