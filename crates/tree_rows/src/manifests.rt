//! `manifest read BYTES`: reads a manifest, or tells the first fault of bytes that are none.
//! `manifest with BYTES LINE`: does so with LINE, up to the end of the call, and a line feed behind BYTES.
//! `manifest share`: shares the manifest; the shared one is asked from then on.
//! `manifest commit`: the commit, in hexadecimal digits. `manifest lines`: how many lines there are behind it.
//! `manifest line FILE`: the directory, the name, the kind, the permissions and the size of a file.
//! `manifest child DIR BYTES`: the file that a name gives.
//! `manifest backing FILE`: the permissions and the size that the backing has for a file, and its count of failures.
use crate::{Done, Trees, file_of, put_file};
use checkout::{Backing, ManifestBacking};
use manifest::{Manifest, ManifestFaultKind};
use row_words::{Output, RowFault, Words, chosen};

/// The calls that make a manifest.
#[derive(Clone, Copy)]
enum MakeCall {
    Read,
    With,
    Share,
}

static MAKE_CALLS: [(&str, MakeCall); 3] = [
    ("read", MakeCall::Read),
    ("with", MakeCall::With),
    ("share", MakeCall::Share),
];

/// The calls that ask a manifest.
#[derive(Clone, Copy)]
enum AskCall {
    Commit,
    Lines,
    Line,
    Child,
    Backing,
}

static ASK_CALLS: [(&str, AskCall); 5] = [
    ("commit", AskCall::Commit),
    ("lines", AskCall::Lines),
    ("line", AskCall::Line),
    ("child", AskCall::Child),
    ("backing", AskCall::Backing),
];

/// Reads the manifest in `text`.
fn read_text(trees: &mut Trees, text: &[u8], output: &mut Output) -> Done {
    match Manifest::read(trees.alloc, text) {
        Ok(manifest) => {
            trees.manifest = Some(manifest);
            output.word("ok");
        }
        Err(fault) if fault.kind == ManifestFaultKind::NoMemory => return Err(RowFault::NoMemory),
        Err(fault) => output.word(format!(in trees.alloc; "{fault}")?.as_str()),
    }
    Ok(())
}

/// Reads a manifest.
fn read(trees: &mut Trees, words: &mut Words<'_>, output: &mut Output) -> Done {
    let text = words.bytes();
    words.end()?;
    read_text(trees, text.as_slice(), output)
}

/// Reads a manifest with one more line.
fn read_with(trees: &mut Trees, words: &mut Words<'_>, output: &mut Output) -> Done {
    let mut text = words.bytes();
    let line = words.line();
    words.end()?;
    text.extend_from_slice(line)?;
    text.push(b'\n')?;
    read_text(trees, text.as_slice(), output)
}

/// Shares the manifest.
fn share(trees: &mut Trees, output: &mut Output) -> Done {
    let shared = trees.manifest.as_ref().ok_or(RowFault::BadRow)?.share()?;
    trees.manifest = Some(shared);
    output.word("ok");
    Ok(())
}

/// Tells the line of a file.
fn line(manifest: &Manifest, words: &mut Words<'_>, output: &mut Output) -> Done {
    let place = words.number().checked_sub(2).ok_or(RowFault::BadRow)?;
    words.end()?;
    let line = manifest
        .lines()
        .get(place as usize)
        .ok_or(RowFault::BadRow)?;
    output.number(line.dir.0);
    output.bytes(line.name.bytes());
    output.word(line.kind.name());
    output.octal(line.perm.bits());
    output.number(line.size);
    Ok(())
}

/// Tells the file that a name gives.
fn child(manifest: &Manifest, words: &mut Words<'_>, output: &mut Output) -> Done {
    let dir = file_of(words);
    let name = words.bytes();
    words.end()?;
    put_file(output, manifest.child(dir, name.as_slice()));
    Ok(())
}

/// Tells what the backing has for a file.
fn backing(manifest: &Manifest, words: &mut Words<'_>, output: &mut Output) -> Done {
    let file = file_of(words);
    words.end()?;
    if manifest.content(file).is_none() {
        return Err(RowFault::BadRow);
    }
    let mut backing = ManifestBacking::of(manifest);
    let content = backing.attr(file).ok().ok_or(RowFault::BadRow)?;
    output.octal(content.perm.bits());
    output.number(content.size);
    output.number(backing.failures());
    Ok(())
}

/// Makes a call on a manifest.
fn ask(manifest: &Manifest, word: &[u8], words: &mut Words<'_>, output: &mut Output) -> Done {
    match chosen(&ASK_CALLS, word).ok_or(RowFault::BadRow)? {
        AskCall::Commit => output.hex(&manifest.commit()),
        AskCall::Lines => output.number(manifest.lines().len() as u64),
        AskCall::Line => return line(manifest, words, output),
        AskCall::Child => return child(manifest, words, output),
        AskCall::Backing => return backing(manifest, words, output),
    }
    words.end()
}

/// Makes a call of manifests.
pub(crate) fn call(trees: &mut Trees, words: &mut Words<'_>, output: &mut Output) -> Done {
    let word = words.word();
    match chosen(&MAKE_CALLS, word) {
        Some(MakeCall::Read) => read(trees, words, output),
        Some(MakeCall::With) => read_with(trees, words, output),
        Some(MakeCall::Share) => share(trees, output),
        None => match trees.manifest.as_ref() {
            Some(manifest) => ask(manifest, word, words, output),
            None => Err(RowFault::BadRow),
        },
    }
}
