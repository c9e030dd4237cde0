//! `git read DIGITS BYTES`: reads what git prints of the commit with this name, or tells the first fault. The manifest is
//! asked by the calls of `manifest` from then on.
//! `git object FILE`: the object of a file, or `none`.
//! `git name BYTES`: the commit that a printed name is of, or the fault of a text that is none.
use crate::{Done, Trees, file_of};
use git_tree::{GitTree, GitTreeFaultKind, ObjectId, commit_of, read_git_tree};
use row_words::{Output, RowFault, Words};

/// Reads a commit.
fn read(trees: &mut Trees, words: &mut Words<'_>, output: &mut Output) -> Done {
    let commit = ObjectId::parse(words.word());
    let printed = words.bytes();
    words.end()?;
    let commit = commit.ok_or(RowFault::BadRow)?;
    match read_git_tree(trees.alloc, commit.0, printed.as_slice()) {
        Ok(GitTree { manifest, objects }) => {
            trees.manifest = Some(manifest);
            trees.objects = Some(objects);
            output.word("ok");
        }
        Err(fault) if fault.kind == GitTreeFaultKind::NoMemory => return Err(RowFault::NoMemory),
        Err(fault) => output.word(format!(in trees.alloc; "{fault}")?.as_str()),
    }
    Ok(())
}

/// Tells the object of a file.
fn object(trees: &Trees, words: &mut Words<'_>, output: &mut Output) -> Done {
    let file = file_of(words);
    words.end()?;
    let objects = trees.objects.as_ref().ok_or(RowFault::BadRow)?;
    match objects.of(file) {
        Some(object) => output.bytes(&object.text()),
        None => output.word("none"),
    }
    Ok(())
}

/// Tells the commit that a printed name is of.
fn name(trees: &Trees, words: &mut Words<'_>, output: &mut Output) -> Done {
    let printed = words.bytes();
    words.end()?;
    match commit_of(printed.as_slice()) {
        Ok(commit) => output.hex(&commit),
        Err(fault) => output.word(format!(in trees.alloc; "{fault}")?.as_str()),
    }
    Ok(())
}

/// Makes a call of git.
pub(crate) fn call(trees: &mut Trees, words: &mut Words<'_>, output: &mut Output) -> Done {
    match words.word() {
        b"read" => read(trees, words, output),
        b"object" => object(trees, words, output),
        b"name" => name(trees, words, output),
        _ => Err(RowFault::BadRow),
    }
}
