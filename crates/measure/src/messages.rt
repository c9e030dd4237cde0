//! Messages of the FUSE protocol, read, answered and written: `measure messages LINES`, at the program's default limit.
//! Each line of the manifest has a number, except the last file of each directory. Files are chosen at random.
ghost use Rattle.fuse_wire.specs.Request.{IsSendable};

use crate::figures::Figures;
use crate::names::{EACH, named};
use crate::random::{ASKED, DEFAULT_LIMIT, Random};
use crate::requests::{Hosted, begin, look_all_up, name_of};
use crate::words::number_at;
use eden_base::{Name, NoMemory, Number, Perm};
use fuse_wire::{
    Ask, Item, MAX_REPLY_LEN, Reply, Request, RequestRoom, read_request, write_reply,
    write_request_to,
};
use std::alloc::Global;

/// A message, as the kernel writes it.
type Text = Vec<u8>;

/// What a daemon serves, and a buffer for its replies.
#[derive(Drop)]
struct Server {
    hosted: Hosted,
    reply: [u8; MAX_REPLY_LEN],
}

impl Server {
    /// Reads a message, answers it, and writes the reply. Returns the length of the reply, or 0 if there is none.
    fn serve(&mut self, alloc: Global, text: &[u8]) -> usize {
        let Ok(ask) = read_request(alloc, text) else {
            return 0;
        };
        let Some(answer) = self.hosted.apply(alloc, &ask.what) else {
            return 0;
        };
        let unique = ask.unique;
        write_reply(&Reply { unique, answer }, &mut self.reply)
    }
}

/// Returns a request as the kernel writes it.
fn text_of(alloc: Global, what: Request) -> Result<Text, NoMemory>
    requires { IsSendable what }
{
    Ok(write_request_to(RequestRoom::new(alloc)?, &Ask { unique: 7, what }))
}

/// Returns the number of the directory that contains the file of number `node`.
fn dir_of(node: Number) -> Number {
    let line = node.0.wrapping_sub(2);
    Number((line - line % EACH).wrapping_add(2))
}

/// Returns the message that looks up the file of number `node`.
fn lookup_of(alloc: Global, node: Number) -> Result<Text, NoMemory> {
    let name = name_of(alloc, node.0.wrapping_sub(2))?;
    let dir = dir_of(node);
    text_of(alloc, Request::Lookup { dir, name })
}

/// Returns the message that asks for the attributes of number `node`.
fn getattr_of(alloc: Global, node: Number) -> Result<Text, NoMemory> {
    text_of(alloc, Request::Getattr { node })
}

/// Returns the message that takes one lookup of number `node` back.
fn forget_of(alloc: Global, node: Number) -> Result<Text, NoMemory> {
    text_of(alloc, Request::Forget(Item { node, k: 1 }))
}

/// Returns the number of a random file that has one: not of a directory, nor of the last file in a directory.
fn held(random: &mut Random, lines: u64) -> Number {
    let node = random.number(lines);
    match node.0.wrapping_sub(2) % EACH {
        0 => Number(node.0.wrapping_add(1)),
        63 => Number(node.0.wrapping_sub(1)),
        _ => node,
    }
}

/// Returns the number that the last file of a random directory had before it was forgotten.
fn fresh(random: &mut Random, lines: u64) -> Number {
    let directories = lines / EACH;
    let line = random
        .number(directories)
        .0
        .wrapping_sub(2)
        .wrapping_mul(EACH);
    Number(line.wrapping_add(EACH).wrapping_add(1))
}

// ---- the messages, each kind in a separate function

#[inline(never)]
fn look_up_held(alloc: Global, server: &mut Server, text: &[u8]) -> usize {
    server.serve(alloc, text)
}

#[inline(never)]
fn get_attr(alloc: Global, server: &mut Server, text: &[u8]) -> bool {
    server.serve(alloc, text) > 0
}

#[inline(never)]
fn mixed(alloc: Global, server: &mut Server, text: &[u8]) -> Option<usize> {
    Some(server.serve(alloc, text))
}

#[inline(never)]
fn look_up_fresh(alloc: Global, server: &mut Server, text: &[u8]) -> bool {
    server.serve(alloc, text) > 16
}

#[inline(never)]
fn forget_last(alloc: Global, server: &mut Server, text: &[u8]) -> bool {
    server.serve(alloc, text) == 0
}

#[inline(never)]
fn make_and_drop(alloc: Global, server: &mut Server, texts: &[Text; 3]) -> u64 {
    let [create, unlink, forget] = texts;
    let opened = server.serve(alloc, create.as_slice()) > 16;
    let done = server.serve(alloc, unlink.as_slice()) == 16;
    let silent = server.serve(alloc, forget.as_slice()) == 0;
    u64::from(opened && done && silent)
}

#[inline(never)]
fn move_and_back(alloc: Global, server: &mut Server, texts: &[Text; 2]) -> Option<u64> {
    let [there, back] = texts;
    let moved = server.serve(alloc, there.as_slice()) == 16;
    let returned = server.serve(alloc, back.as_slice()) == 16;
    if moved && returned { Some(1) } else { None }
}

// ---- the runs

/// Forgets the last file of each directory, so that it has no number.
fn forget_each_last(alloc: Global, server: &mut Server, lines: u64) -> Result<(), NoMemory> {
    for directory in 0..lines / EACH {
        let line = directory.wrapping_mul(EACH).wrapping_add(EACH);
        let text = forget_of(alloc, Number(line.wrapping_add(1)))?;
        server.serve(alloc, text.as_slice());
        drop(text);
    }
    Ok(())
}

/// Looks up random files that have numbers. Returns the sum of the lengths of the replies.
fn look_up(alloc: Global, server: &mut Server, lines: u64) -> Result<u64, NoMemory> {
    let (mut random, mut length) = (Random::new(), 0u64);
    for _ in 0..ASKED {
        let text = lookup_of(alloc, held(&mut random, lines))?;
        length = length.wrapping_add(look_up_held(alloc, server, text.as_slice()) as u64);
        drop(text);
    }
    Ok(length)
}

/// Asks for the attributes of random files. Returns how many replies come.
fn show(alloc: Global, server: &mut Server, lines: u64) -> Result<u64, NoMemory> {
    let (mut random, mut shown) = (Random::new(), 0u64);
    for _ in 0..ASKED {
        let text = getattr_of(alloc, held(&mut random, lines))?;
        shown = shown.wrapping_add(u64::from(get_attr(alloc, server, text.as_slice())));
        drop(text);
    }
    Ok(shown)
}

/// Returns a lookup if `turn` is even, else an ask for attributes.
fn mixed_of(alloc: Global, turn: u64, node: Number) -> Result<Text, NoMemory> {
    if turn % 2 == 0 {
        lookup_of(alloc, node)
    } else {
        getattr_of(alloc, node)
    }
}

/// Looks up a random file in each even turn, and asks for the attributes of one in each odd turn. Returns the sum of
/// the replies' lengths.
fn mix(alloc: Global, server: &mut Server, lines: u64) -> Result<u64, NoMemory> {
    let (mut random, mut length) = (Random::new(), 0u64);
    for turn in 0..ASKED {
        let text = mixed_of(alloc, turn, held(&mut random, lines))?;
        let replied = mixed(alloc, server, text.as_slice()).unwrap_or(0);
        length = length.wrapping_add(replied as u64);
        drop(text);
    }
    Ok(length)
}

/// Looks up a file that has no number, and forgets the number that it gets. Returns whether both went as expected.
fn find_fresh(alloc: Global, server: &mut Server, node: Number) -> Result<bool, NoMemory> {
    let given = server.hosted.served.map().next();
    let lookup = lookup_of(alloc, node)?;
    let forget = forget_of(alloc, Number(given))?;
    let found = look_up_fresh(alloc, server, lookup.as_slice());
    let gone = forget_last(alloc, server, forget.as_slice());
    drop(lookup);
    drop(forget);
    Ok(found && gone)
}

/// Looks up random files that have no number. Returns how many were found and forgotten again.
fn find(alloc: Global, server: &mut Server, lines: u64) -> Result<u64, NoMemory> {
    let (mut random, mut found) = (Random::new(), 0u64);
    for _ in 0..ASKED {
        if find_fresh(alloc, server, fresh(&mut random, lines))? {
            found = found.wrapping_add(1);
        }
    }
    Ok(found)
}

/// Returns a name that no line of the manifest has.
fn made_name(alloc: Global, i: u64) -> Result<Name, NoMemory> {
    named(alloc, format!(in alloc; "made{i}.txt")?)
}

/// Returns three messages: they make a file in the directory `dir`, remove its name, and forget its number `given`.
fn made_of(alloc: Global, dir: Number, i: u64, given: Number) -> Result<[Text; 3], NoMemory> {
    let perm = Perm::DIRECTORY;
    let name = made_name(alloc, i)?;
    let create = text_of(alloc, Request::Create { dir, name, perm })?;
    let name = made_name(alloc, i)?;
    let unlink = text_of(alloc, Request::Unlink { dir, name })?;
    let forget = forget_of(alloc, given)?;
    Ok([create, unlink, forget])
}

/// Makes files in random directories, and removes each at once. Returns how many were made.
fn make(alloc: Global, server: &mut Server, lines: u64) -> Result<u64, NoMemory> {
    let (mut random, mut made) = (Random::new(), 0u64);
    for i in 0..ASKED {
        let dir = dir_of(random.number(lines));
        let given = Number(server.hosted.served.map().next());
        let texts = made_of(alloc, dir, i, given)?;
        made = made.wrapping_add(make_and_drop(alloc, server, &texts));
        drop(texts);
    }
    Ok(made)
}

/// Returns two messages: they move the file of number `node` to a new name in the directory `to_dir`, and back.
fn moves_of(alloc: Global, node: Number, to_dir: Number, i: u64) -> Result<[Text; 2], NoMemory> {
    let (dir, line) = (dir_of(node), node.0.wrapping_sub(2));
    let name = name_of(alloc, line)?;
    let to_name = made_name(alloc, i)?;
    let there = text_of(
        alloc,
        Request::Rename {
            dir,
            name,
            to_dir,
            to_name,
        },
    )?;
    let name = made_name(alloc, i)?;
    let to_name = name_of(alloc, line)?;
    let back = text_of(
        alloc,
        Request::Rename {
            dir: to_dir,
            name,
            to_dir: dir,
            to_name,
        },
    )?;
    Ok([there, back])
}

/// Moves random files that have numbers to new names in random directories, and each back at once. Returns how many were
/// moved.
fn move_all(alloc: Global, server: &mut Server, lines: u64) -> Result<u64, NoMemory> {
    let (mut random, mut moved) = (Random::new(), 0u64);
    for i in 0..ASKED {
        let node = held(&mut random, lines);
        let to_dir = dir_of(random.number(lines));
        let texts = moves_of(alloc, node, to_dir, i)?;
        moved = moved.wrapping_add(move_and_back(alloc, server, &texts).unwrap_or(0));
        drop(texts);
    }
    Ok(moved)
}

/// Sends all messages to `server`, and returns what was measured.
fn send_all(alloc: Global, server: &mut Server, lines: u64) -> Result<Figures, NoMemory> {
    look_all_up(alloc, &mut server.hosted, lines)?;
    forget_each_last(alloc, server, lines)?;
    let looked_up = look_up(alloc, server, lines)?;
    let shown = show(alloc, server, lines)?;
    let mixed = mix(alloc, server, lines)?;
    let found = find(alloc, server, lines)?;
    let made = make(alloc, server, lines)?;
    let moved = move_all(alloc, server, lines)?;
    Ok(Figures::of(
        &["looked-up", "shown", "mixed", "found", "made", "moved"],
        &[looked_up, shown, mixed, found, made, moved],
    ))
}

/// Sends all messages, as `words` say. Returns none if `words` give no number of lines.
pub(crate) fn measure(alloc: Global, words: &[&str]) -> Result<Option<Figures>, NoMemory> {
    let Some(lines) = number_at(words, 0) else {
        return Ok(None);
    };
    let lines = u64::from(lines);
    let mut server = Server {
        hosted: begin(alloc, lines, DEFAULT_LIMIT)?,
        reply: [0; MAX_REPLY_LEN],
    };
    let figures = send_all(alloc, &mut server, lines);
    drop(server);
    figures.map(Some)
}
