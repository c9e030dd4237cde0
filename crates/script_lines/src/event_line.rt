//! The lines of a script, each read as an event.
ghost use Rattle.std.specs.Prelude.{◌≡◌, None, IfOk, option_map};
ghost use Rattle.script_lines.specs.Number.{number_of};
ghost use Rattle.script_lines.specs.EventLine.{event_of, start_of, with_version, daemon_event_by, mount_of, take_of, work_of, tried_of, tried_at, pair_of, post_of, takeover_event_by, hear_of, drained_of, give_up_of, claim_of, crash_of, issue_of, do_of, request_of, request_by, naming_by, lookup_of, create_of, mkdir_of, unlink_of, rmdir_of, rename_of, names_of, forget_of, getattr_of, readlink_of, range_of, read_of, readdir_of, other_said, named_of, made_of, name_of};

use crate::decimal::number;
use arrayvec::ArrayVec;
use eden_base::{DaemonId, Name, NameFault, NoMemory, Number, Perm, cut};
use fuse_wire::{Item, Request};
use manifest::mode_of;
use std::alloc::Global;
use takeover_core::Versions;
use world::Event;

/// Reads the event of a line, which comes without its LF. Returns none if the line is bad.
pub fn read_event(alloc: Global, line: &[u8]) -> Result<Option<Event>, NoMemory>
    ensures event { IfOk result (λ event. event ≡ event_of line.now) }
{
    if line == b"start".as_slice() {
        return Ok(Some(Event::Start(Versions::of(&[1]))));
    }
    if line == b"show".as_slice() {
        return Ok(Some(Event::Show));
    }
    if line == b"deliver".as_slice() {
        return Ok(Some(Event::Deliver));
    }
    let Some((word, rest)) = cut(line, b' ') else {
        return Ok(None);
    };
    if word == b"do".as_slice() {
        return read_do(alloc, rest);
    }
    if word == b"issue".as_slice() {
        return read_issue(alloc, rest);
    }
    if word == b"start".as_slice() {
        return Ok(read_start(rest));
    }
    Ok(read_daemon_event(word, rest))
}

/// Reads an event of a daemon, by the line's first word and the rest. Returns none if the line is bad.
fn read_daemon_event(word: &[u8], rest: &[u8]) -> Option<Event>
    ensures { result ≡ daemon_event_by word.now rest.now }
{
    if word == b"mount".as_slice() {
        return read_mount(rest);
    }
    if word == b"take".as_slice() {
        return read_take(rest);
    }
    if word == b"work".as_slice() {
        return read_work(rest);
    }
    if word == b"post".as_slice() {
        return read_post(rest);
    }
    if word == b"crash".as_slice() {
        return read_crash(rest);
    }
    read_takeover_event(word, rest)
}

/// Reads an event of a daemon in a takeover, by the line's first word and the rest. Returns none if the line is bad.
fn read_takeover_event(word: &[u8], rest: &[u8]) -> Option<Event>
    ensures { result ≡ takeover_event_by word.now rest.now }
{
    if word == b"hear".as_slice() {
        return read_hear(rest);
    }
    if word == b"drained".as_slice() {
        return read_drained(rest);
    }
    if word == b"giveup".as_slice() {
        return read_give_up(rest);
    }
    if word == b"claim".as_slice() {
        return read_claim(rest);
    }
    None
}

/// Reads the words of a `start` line: one to eight versions of the image.
fn read_start(words: &[u8]) -> Option<Event>
    ensures { result ≡ start_of words.now }
{
    let mut versions = ArrayVec::new();
    let mut rest = words;
    while let Some((word, behind)) = cut(rest, b' ') {
        versions = with_version(versions, word)?;
        rest = behind;
    }
    versions = with_version(versions, rest)?;
    Some(Event::Start(Versions::of(versions.as_slice())))
}

/// Returns `versions` with the version of `word` appended, if `word` is a version and there are at most eight then.
fn with_version(mut versions: ArrayVec<u16, 8>, word: &[u8]) -> Option<ArrayVec<u16, 8>>
    ensures { option_map (λ longer. longer.items) result ≡ with_version versions.items word.now }
{
    let version = u16::try_from(number(word)?).ok()?;
    versions.try_push(version).ok()?;
    Some(versions)
}

/// Reads the words of a `mount` line: the daemon.
fn read_mount(words: &[u8]) -> Option<Event>
    ensures { result ≡ mount_of words.now }
{
    let daemon = number(words)?;
    Some(Event::Mount(DaemonId(daemon)))
}

/// Reads the words of a `take` line: the daemon.
fn read_take(words: &[u8]) -> Option<Event>
    ensures { result ≡ take_of words.now }
{
    let daemon = number(words)?;
    Some(Event::Take(DaemonId(daemon)))
}

/// Reads the words of a `work` line: the daemon, a position in its hand, and whether its backing fails.
fn read_work(words: &[u8]) -> Option<Event>
    ensures { result ≡ work_of words.now }
{
    let (daemon, rest) = cut(words, b' ')?;
    let daemon = DaemonId(number(daemon)?);
    let (position, fails) = read_tried(rest)?;
    Some(Event::Work {
        daemon,
        position,
        fails,
    })
}

/// Reads a position, and whether the word `fail` follows it. Mostly nothing does, so that is read first.
fn read_tried(words: &[u8]) -> Option<(u64, bool)>
    ensures { result ≡ tried_of words.now }
{
    match number(words) {
        Some(position) => Some((position, false)),
        None => read_failing(words),
    }
}

/// Reads a position that the word `fail` follows.
fn read_failing(words: &[u8]) -> Option<(u64, bool)>
    requires more { number_of words.now ≡ None }
    ensures { result ≡ tried_of words.now }
{
    let (position, word) = cut(words, b' ')?;
    if word != b"fail".as_slice() {
        return None;
    }
    Some((number(position)?, true))
}

/// Reads two numbers, separated by a space: what follows `post`, `hear`, `forget` or `other`, and the number of a
/// `read` or a `readdir`.
pub(crate) fn read_pair(words: &[u8]) -> Option<(u64, u64)>
    ensures { result ≡ pair_of words.now }
{
    let (first, second) = cut(words, b' ')?;
    Some((number(first)?, number(second)?))
}

/// Reads the words of a `post` line: the daemon, and a position of its unposted replies.
fn read_post(words: &[u8]) -> Option<Event>
    ensures { result ≡ post_of words.now }
{
    let (daemon, position) = read_pair(words)?;
    let daemon = DaemonId(daemon);
    Some(Event::Post { daemon, position })
}

/// Reads the words of a `hear` line: the daemon, and the position of a message.
fn read_hear(words: &[u8]) -> Option<Event>
    ensures { result ≡ hear_of words.now }
{
    let (daemon, position) = read_pair(words)?;
    let daemon = DaemonId(daemon);
    Some(Event::Hear { daemon, position })
}

/// Reads the words of a `drained` line: the daemon.
fn read_drained(words: &[u8]) -> Option<Event>
    ensures { result ≡ drained_of words.now }
{
    let daemon = number(words)?;
    Some(Event::Drained(DaemonId(daemon)))
}

/// Reads the words of a `giveup` line: the daemon.
fn read_give_up(words: &[u8]) -> Option<Event>
    ensures { result ≡ give_up_of words.now }
{
    let daemon = number(words)?;
    Some(Event::GiveUp(DaemonId(daemon)))
}

/// Reads the words of a `claim` line: the daemon.
fn read_claim(words: &[u8]) -> Option<Event>
    ensures { result ≡ claim_of words.now }
{
    let daemon = number(words)?;
    Some(Event::Claim(DaemonId(daemon)))
}

/// Reads the words of a `crash` line: the daemon.
fn read_crash(words: &[u8]) -> Option<Event>
    ensures { result ≡ crash_of words.now }
{
    let daemon = number(words)?;
    Some(Event::Crash(DaemonId(daemon)))
}

/// Reads the words of an `issue` line: the request that the kernel issues.
fn read_issue(alloc: Global, words: &[u8]) -> Result<Option<Event>, NoMemory>
    ensures { IfOk result (λ event. event ≡ issue_of words.now) }
{
    match read_request(alloc, words)? {
        Some(request) => Ok(Some(Event::Issue(request))),
        None => Ok(None),
    }
}

/// Reads the words of a `do` line: the request that the kernel issues, and that is worked off at once.
fn read_do(alloc: Global, words: &[u8]) -> Result<Option<Event>, NoMemory>
    ensures { IfOk result (λ event. event ≡ do_of words.now) }
{
    match read_request(alloc, words)? {
        Some(request) => Ok(Some(Event::Do(request))),
        None => Ok(None),
    }
}

/// Reads the request that words write. Returns none if they write none.
pub(crate) fn read_request(alloc: Global, words: &[u8]) -> Result<Option<Request>, NoMemory>
    ensures { IfOk result (λ request. request ≡ request_of words.now) }
{
    match cut(words, b' ') {
        Some((word, rest)) => read_request_by(alloc, word, rest),
        None => Ok(None),
    }
}

/// Reads a request by its first word and the rest. A forget is looked for first, since the kernel forgets in batches.
fn read_request_by(alloc: Global, word: &[u8], rest: &[u8]) -> Result<Option<Request>, NoMemory>
    ensures { IfOk result (λ request. request ≡ request_by word.now rest.now) }
{
    if word == b"forget".as_slice() {
        return Ok(read_forget(rest));
    }
    if word == b"getattr".as_slice() {
        return Ok(read_getattr(rest));
    }
    if word == b"readlink".as_slice() {
        return Ok(read_readlink(rest));
    }
    if word == b"read".as_slice() {
        return Ok(read_read(rest));
    }
    if word == b"readdir".as_slice() {
        return Ok(read_readdir(rest));
    }
    if word == b"other".as_slice() {
        return Ok(read_other(rest));
    }
    read_naming(alloc, word, rest)
}

/// Reads a request with a name, by its first word and the rest.
fn read_naming(alloc: Global, word: &[u8], rest: &[u8]) -> Result<Option<Request>, NoMemory>
    ensures { IfOk result (λ request. request ≡ naming_by word.now rest.now) }
{
    if word == b"lookup".as_slice() {
        return read_lookup(alloc, rest);
    }
    if word == b"create".as_slice() {
        return read_create(alloc, rest);
    }
    if word == b"mkdir".as_slice() {
        return read_mkdir(alloc, rest);
    }
    if word == b"unlink".as_slice() {
        return read_unlink(alloc, rest);
    }
    if word == b"rmdir".as_slice() {
        return read_rmdir(alloc, rest);
    }
    if word == b"rename".as_slice() {
        return read_rename(alloc, rest);
    }
    Ok(None)
}

/// Reads the words of a `lookup`: a directory's number, and the name to look up in it.
fn read_lookup(alloc: Global, words: &[u8]) -> Result<Option<Request>, NoMemory>
    ensures { IfOk result (λ request. request ≡ lookup_of words.now) }
{
    match read_named(alloc, words)? {
        Some((dir, name)) => Ok(Some(Request::Lookup { dir, name })),
        None => Ok(None),
    }
}

/// Reads the words of a `create`: a directory's number, and permissions and name of the file to make in it.
fn read_create(alloc: Global, words: &[u8]) -> Result<Option<Request>, NoMemory>
    ensures { IfOk result (λ request. request ≡ create_of words.now) }
{
    match read_made(alloc, words)? {
        Some((dir, perm, name)) => Ok(Some(Request::Create { dir, name, perm })),
        None => Ok(None),
    }
}

/// Reads the words of a `mkdir`: a directory's number, and permissions and name of the directory to make in it.
fn read_mkdir(alloc: Global, words: &[u8]) -> Result<Option<Request>, NoMemory>
    ensures { IfOk result (λ request. request ≡ mkdir_of words.now) }
{
    match read_made(alloc, words)? {
        Some((dir, perm, name)) => Ok(Some(Request::Mkdir { dir, name, perm })),
        None => Ok(None),
    }
}

/// Reads the words of an `unlink`: a directory's number, and the name that a file loses in it.
fn read_unlink(alloc: Global, words: &[u8]) -> Result<Option<Request>, NoMemory>
    ensures { IfOk result (λ request. request ≡ unlink_of words.now) }
{
    match read_named(alloc, words)? {
        Some((dir, name)) => Ok(Some(Request::Unlink { dir, name })),
        None => Ok(None),
    }
}

/// Reads the words of an `rmdir`: a directory's number, and the name that a directory loses in it.
fn read_rmdir(alloc: Global, words: &[u8]) -> Result<Option<Request>, NoMemory>
    ensures { IfOk result (λ request. request ≡ rmdir_of words.now) }
{
    match read_named(alloc, words)? {
        Some((dir, name)) => Ok(Some(Request::Rmdir { dir, name })),
        None => Ok(None),
    }
}

/// Reads the words of a `rename`: the number of the old directory, that of the new one, and `OLD/NEW`, the names in
/// them.
fn read_rename(alloc: Global, words: &[u8]) -> Result<Option<Request>, NoMemory>
    ensures { IfOk result (λ request. request ≡ rename_of words.now) }
{
    let Some((dir, rest)) = cut(words, b' ') else {
        return Ok(None);
    };
    let Some(dir) = number(dir) else {
        return Ok(None);
    };
    let Some((to_dir, names)) = cut(rest, b' ') else {
        return Ok(None);
    };
    let Some(to_dir) = number(to_dir) else {
        return Ok(None);
    };
    match read_names(alloc, names)? {
        Some((name, to_name)) => Ok(Some(Request::Rename {
            dir: Number(dir),
            name,
            to_dir: Number(to_dir),
            to_name,
        })),
        None => Ok(None),
    }
}

/// Reads `OLD/NEW`, two names. Returns none if one of them is no name.
fn read_names(alloc: Global, bytes: &[u8]) -> Result<Option<(Name, Name)>, NoMemory>
    ensures { IfOk result (λ names. names ≡ names_of bytes.now) }
{
    let Some((old, new)) = cut(bytes, b'/') else {
        return Ok(None);
    };
    let Some(old) = read_name(alloc, old)? else {
        return Ok(None);
    };
    let Some(new) = read_name(alloc, new)? else {
        return Ok(None);
    };
    Ok(Some((old, new)))
}

/// Reads a directory's number, and a name in it.
fn read_named(alloc: Global, words: &[u8]) -> Result<Option<(Number, Name)>, NoMemory>
    ensures { IfOk result (λ named. named ≡ named_of words.now) }
{
    let Some((dir, name)) = cut(words, b' ') else {
        return Ok(None);
    };
    let Some(dir) = number(dir) else {
        return Ok(None);
    };
    match read_name(alloc, name)? {
        Some(name) => Ok(Some((Number(dir), name))),
        None => Ok(None),
    }
}

/// Reads a directory's number, permissions, and a name in that directory.
fn read_made(alloc: Global, words: &[u8]) -> Result<Option<(Number, Perm, Name)>, NoMemory>
    ensures { IfOk result (λ made. made ≡ made_of words.now) }
{
    let Some((dir, rest)) = cut(words, b' ') else {
        return Ok(None);
    };
    let Some(dir) = number(dir) else {
        return Ok(None);
    };
    let Some((digits, name)) = cut(rest, b' ') else {
        return Ok(None);
    };
    let Some(perm) = mode_of(digits) else {
        return Ok(None);
    };
    match read_name(alloc, name)? {
        Some(name) => Ok(Some((Number(dir), perm, name))),
        None => Ok(None),
    }
}

/// Reads a name, which runs to the end of the line. Returns none if the bytes are no name.
fn read_name(alloc: Global, bytes: &[u8]) -> Result<Option<Name>, NoMemory>
    ensures { IfOk result (λ name. name ≡ name_of bytes.now) }
{
    match Name::parse(alloc, bytes) {
        Ok(name) => Ok(Some(name)),
        Err(NameFault::NoMemory) => Err(NoMemory),
        Err(_) => Ok(None),
    }
}

/// Reads the words of a `forget`: a number, and how many lookups are taken back.
fn read_forget(words: &[u8]) -> Option<Request>
    ensures { result ≡ forget_of words.now }
{
    let (node, k) = read_pair(words)?;
    let node = Number(node);
    Some(Request::Forget(Item { node, k }))
}

/// Reads the words of a `getattr`: the number whose attributes are asked for.
fn read_getattr(words: &[u8]) -> Option<Request>
    ensures { result ≡ getattr_of words.now }
{
    let node = Number(number(words)?);
    Some(Request::Getattr { node })
}

/// Reads the words of a `readlink`: the number of the symbolic link whose target is asked for.
fn read_readlink(words: &[u8]) -> Option<Request>
    ensures { result ≡ readlink_of words.now }
{
    let node = Number(number(words)?);
    Some(Request::Readlink { node })
}

/// Reads the words of a `read`: a file's number, the offset from which it is read, and how many bytes are asked for.
fn read_read(words: &[u8]) -> Option<Request>
    ensures { result ≡ read_of words.now }
{
    let (node, offset, size) = read_range(words)?;
    Some(Request::Read { node, offset, size })
}

/// Reads the words of a `readdir`: a directory's number, the offset from which it is listed, and how many bytes the
/// answer may have.
fn read_readdir(words: &[u8]) -> Option<Request>
    ensures { result ≡ readdir_of words.now }
{
    let (dir, offset, size) = read_range(words)?;
    Some(Request::Readdir { dir, offset, size })
}

/// Reads a number, an offset, and a size of 32 bits: what follows `read` or `readdir`.
fn read_range(words: &[u8]) -> Option<(Number, u64, u32)>
    ensures { result ≡ range_of words.now }
{
    let (node, rest) = cut(words, b' ')?;
    let node = Number(number(node)?);
    let (offset, size) = read_pair(rest)?;
    let size = u32::try_from(size).ok()?;
    Some((node, offset, size))
}

/// Reads the words of an `other`: the opcode of a request that has no command of its own, and the request's number.
fn read_other(words: &[u8]) -> Option<Request>
    ensures { result ≡ other_said words.now }
{
    let (opcode, node) = read_pair(words)?;
    let opcode = u32::try_from(opcode).ok()?;
    Request::other(opcode, Number(node))
}
