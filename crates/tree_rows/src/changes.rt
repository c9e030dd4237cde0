//! The changes of a tree as words: `next FILE`, `made FILE KIND PERM` for each made file, and then `name DIR NAME FILE`
//! for each changed name, with `none` where it gives no file.
use crate::{Done, file_of, file_or_none, kind_of, perm_of, put_file};
use checkout::{Changes, LinkList, Made, MadeList, Tree};
use manifest::LinkChange;
use row_words::{Output, RowFault, Words};
use std::alloc::Global;

/// How many changes a row may have.
const MOST_CHANGES: u64 = 1 << 16;

/// What is told of the changes of a tree.
#[derive(Clone, Copy)]
pub(crate) enum Part {
    Made,
    Names,
    All,
}

/// The changes that words have told.
#[derive(Drop)]
struct Lists {
    made: Vec<Made>,
    links: Vec<LinkChange>,
}

/// Reads a made file.
fn made_of(words: &mut Words<'_>) -> Made {
    let file = file_of(words);
    let kind = kind_of(words);
    let perm = perm_of(words);
    Made { file, kind, perm }
}

/// Reads a changed name, and appends it to `links`.
fn push_link(links: &mut Vec<LinkChange>, words: &mut Words<'_>) -> Done {
    let dir = file_of(words);
    let name = words.name();
    let target = file_or_none(words);
    if let Some(name) = name {
        links.push(LinkChange { dir, name, target })?;
    }
    Ok(())
}

/// Reads all changes that the words tell.
fn push_changes(lists: &mut Lists, words: &mut Words<'_>) -> Done {
    for _change in 0..MOST_CHANGES {
        if !words.has_more() {
            break;
        }
        match words.word() {
            b"made" => lists.made.push(made_of(words))?,
            b"name" => push_link(&mut lists.links, words)?,
            _ => words.refuse(),
        }
    }
    words.end()
}

/// Reads changes.
pub(crate) fn changes_of(alloc: Global, words: &mut Words<'_>) -> Result<Changes, RowFault> {
    if words.word() != b"next".as_slice() {
        words.refuse();
    }
    let next_file = file_of(words);
    let mut lists = Lists {
        made: Vec::new(alloc),
        links: Vec::new(alloc),
    };
    push_changes(&mut lists, words)?;
    let Lists { made, links } = lists;
    Ok(Changes {
        made: MadeList::of(made),
        links: LinkList::of(links),
        next_file,
    })
}

/// Writes made files.
fn put_made(made: &[Made], output: &mut Output) {
    for made in made {
        output.word("made");
        output.number(made.file.0);
        output.word(made.kind.kind().name());
        output.octal(made.perm.bits());
    }
}

/// Writes changed names.
fn put_names(links: &[LinkChange], output: &mut Output) {
    for link in links {
        output.word("name");
        output.number(link.dir.0);
        output.bytes(link.name.bytes());
        put_file(output, link.target);
    }
}

/// Writes the changes of `tree`: how many files were made, the changed names alone, or all, as `part` says.
pub(crate) fn put_changes(tree: &Tree, part: Part, output: &mut Output) -> Done {
    let changes = tree.changes()?;
    match part {
        Part::Made => output.number(changes.made.as_slice().len() as u64),
        Part::Names => {
            output.number(changes.links.as_slice().len() as u64);
            put_names(changes.links.as_slice(), output);
        }
        Part::All => {
            output.word("next");
            output.number(changes.next_file.0);
            put_made(changes.made.as_slice(), output);
            put_names(changes.links.as_slice(), output);
        }
    }
    Ok(())
}
