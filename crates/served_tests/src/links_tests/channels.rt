//! A channel over memory: what it hears, what its calls return, and what it says.
use crate::again::are_put;
use broker_core::TakeFault;
use eden_base::Errno;
use fuse_wire::{Answer, Reply};
use links::SocketChannel;
use std::alloc::Global;
use workers::{NextAsk, Posted};

/// What a `take` or a `post` gives.
#[derive(Clone, Copy, PartialEq, Eq)]
enum Comes {
    /// An ask of this unique.
    Ask(u64),
    Empty,
    Stopped,
    Broken,
    Posted,
}

/// What the broker says, in parts of its bytes; what a call gives; why the broker has no more, if it said so; and what
/// the channel says behind the text of the call.
struct Row {
    hears: &'static [&'static [u8]],
    gives: Comes,
    ended: Option<TakeFault>,
    says: &'static [u8],
}

/// The text of a Take at generation 1.
static TAKE: [u8; 13] = [0, 0, 0, 8, 1, 0, 0, 0, 0, 0, 0, 0, 1];

static TAKES: [Row; 17] = [
    // Three rows: Empty; Ended; Stale, with the seat at generation 2.
    Row {
        hears: &[&[0, 0, 0, 0, 3]],
        gives: Comes::Empty,
        ended: None,
        says: &[],
    },
    Row {
        hears: &[&[0, 0, 0, 0, 6]],
        gives: Comes::Stopped,
        ended: Some(TakeFault::Ended),
        says: &[],
    },
    Row {
        hears: &[&[0, 0, 0, 8, 7, 0, 0, 0, 0, 0, 0, 0, 2]],
        gives: Comes::Stopped,
        ended: Some(TakeFault::Stale(2)),
        says: &[],
    },
    // An Ask: GETATTR of the root, with unique 7.
    Row {
        hears: &[
            &[0, 0, 0, 56, 2],
            &[
                56, 0, 0, 0, 3, 0, 0, 0, 7, 0, 0, 0, 0, 0, 0, 0, 1, 0, 0, 0, 0, 0, 0, 0,
            ],
            &[0; 32],
        ],
        gives: Comes::Ask(7),
        ended: None,
        says: &[],
    },
    // An Ask: a batch of one item, which takes one lookup of number 2 back, with unique 8.
    Row {
        hears: &[
            &[0, 0, 0, 64, 2],
            &[
                64, 0, 0, 0, 42, 0, 0, 0, 8, 0, 0, 0, 0, 0, 0, 0, 0, 0, 0, 0, 0, 0, 0, 0,
            ],
            &[0; 16],
            &[
                1, 0, 0, 0, 0, 0, 0, 0, 2, 0, 0, 0, 0, 0, 0, 0, 1, 0, 0, 0, 0, 0, 0, 0,
            ],
        ],
        gives: Comes::Ask(8),
        ended: None,
        says: &[],
    },
    // A request of 40 bytes whose header says 41: EINVAL is posted.
    Row {
        hears: &[
            &[0, 0, 0, 40, 2],
            &[
                41, 0, 0, 0, 3, 0, 0, 0, 7, 0, 0, 0, 0, 0, 0, 0, 1, 0, 0, 0, 0, 0, 0, 0,
            ],
            &[0; 16],
            &[0, 0, 0, 0, 5],
        ],
        gives: Comes::Empty,
        ended: None,
        says: &[
            0, 0, 0, 24, 4, 0, 0, 0, 0, 0, 0, 0, 1, 16, 0, 0, 0, 234, 255, 255, 255, 7, 0, 0, 0, 0,
            0, 0, 0,
        ],
    },
    // A LOOKUP of a name of 256 bytes: ENAMETOOLONG is posted.
    Row {
        hears: &[
            &[0, 0, 1, 41, 2],
            &[
                41, 1, 0, 0, 1, 0, 0, 0, 7, 0, 0, 0, 0, 0, 0, 0, 1, 0, 0, 0, 0, 0, 0, 0,
            ],
            &[0; 16],
            &[97; 256],
            &[0],
            &[0, 0, 0, 0, 5],
        ],
        gives: Comes::Empty,
        ended: None,
        says: &[
            0, 0, 0, 24, 4, 0, 0, 0, 0, 0, 0, 0, 1, 16, 0, 0, 0, 220, 255, 255, 255, 7, 0, 0, 0, 0,
            0, 0, 0,
        ],
    },
    // Four rows: the request of 40 bytes once more, but the Post is answered Ended, Stale or NotAsked, or not at all.
    Row {
        hears: &[
            &[0, 0, 0, 40, 2],
            &[
                41, 0, 0, 0, 3, 0, 0, 0, 7, 0, 0, 0, 0, 0, 0, 0, 1, 0, 0, 0, 0, 0, 0, 0,
            ],
            &[0; 16],
            &[0, 0, 0, 0, 6],
        ],
        gives: Comes::Broken,
        ended: Some(TakeFault::Ended),
        says: &[
            0, 0, 0, 24, 4, 0, 0, 0, 0, 0, 0, 0, 1, 16, 0, 0, 0, 234, 255, 255, 255, 7, 0, 0, 0, 0,
            0, 0, 0,
        ],
    },
    Row {
        hears: &[
            &[0, 0, 0, 40, 2],
            &[
                41, 0, 0, 0, 3, 0, 0, 0, 7, 0, 0, 0, 0, 0, 0, 0, 1, 0, 0, 0, 0, 0, 0, 0,
            ],
            &[0; 16],
            &[0, 0, 0, 8, 7, 0, 0, 0, 0, 0, 0, 0, 2],
        ],
        gives: Comes::Broken,
        ended: Some(TakeFault::Stale(2)),
        says: &[
            0, 0, 0, 24, 4, 0, 0, 0, 0, 0, 0, 0, 1, 16, 0, 0, 0, 234, 255, 255, 255, 7, 0, 0, 0, 0,
            0, 0, 0,
        ],
    },
    Row {
        hears: &[
            &[0, 0, 0, 40, 2],
            &[
                41, 0, 0, 0, 3, 0, 0, 0, 7, 0, 0, 0, 0, 0, 0, 0, 1, 0, 0, 0, 0, 0, 0, 0,
            ],
            &[0; 16],
            &[0, 0, 0, 0, 8],
        ],
        gives: Comes::Broken,
        ended: None,
        says: &[
            0, 0, 0, 24, 4, 0, 0, 0, 0, 0, 0, 0, 1, 16, 0, 0, 0, 234, 255, 255, 255, 7, 0, 0, 0, 0,
            0, 0, 0,
        ],
    },
    Row {
        hears: &[
            &[0, 0, 0, 40, 2],
            &[
                41, 0, 0, 0, 3, 0, 0, 0, 7, 0, 0, 0, 0, 0, 0, 0, 1, 0, 0, 0, 0, 0, 0, 0,
            ],
            &[0; 16],
        ],
        gives: Comes::Broken,
        ended: None,
        says: &[
            0, 0, 0, 24, 4, 0, 0, 0, 0, 0, 0, 0, 1, 16, 0, 0, 0, 234, 255, 255, 255, 7, 0, 0, 0, 0,
            0, 0, 0,
        ],
    },
    // Two rows: a request of 39 bytes, and a FORGET of a wrong length. Neither is answered.
    Row {
        hears: &[
            &[0, 0, 0, 39, 2],
            &[
                39, 0, 0, 0, 3, 0, 0, 0, 7, 0, 0, 0, 0, 0, 0, 0, 1, 0, 0, 0, 0, 0, 0, 0,
            ],
            &[0; 15],
        ],
        gives: Comes::Broken,
        ended: None,
        says: &[],
    },
    Row {
        hears: &[
            &[0, 0, 0, 40, 2],
            &[
                40, 0, 0, 0, 2, 0, 0, 0, 7, 0, 0, 0, 0, 0, 0, 0, 2, 0, 0, 0, 0, 0, 0, 0,
            ],
            &[0; 16],
        ],
        gives: Comes::Broken,
        ended: None,
        says: &[],
    },
    // Four rows: NotAsked, which answers no Take; a kind that does not exist; an end within a frame; an end at once.
    Row {
        hears: &[&[0, 0, 0, 0, 8]],
        gives: Comes::Broken,
        ended: None,
        says: &[],
    },
    Row {
        hears: &[&[0, 0, 0, 0, 200]],
        gives: Comes::Broken,
        ended: None,
        says: &[],
    },
    Row {
        hears: &[&[0, 0, 0, 8, 7, 0]],
        gives: Comes::Broken,
        ended: None,
        says: &[],
    },
    Row {
        hears: &[],
        gives: Comes::Broken,
        ended: None,
        says: &[],
    },
];

/// The text of a Post at generation 1, which answers ENOENT to unique 9.
static POST: [u8; 29] = [
    0, 0, 0, 24, 4, 0, 0, 0, 0, 0, 0, 0, 1, 16, 0, 0, 0, 254, 255, 255, 255, 9, 0, 0, 0, 0, 0, 0, 0,
];

/// The text of a Posted.
static POSTED: [u8; 5] = [0, 0, 0, 0, 5];

/// The text of that Post, and of a Take behind it.
static POST_AND_TAKE: [u8; 42] = [
    0, 0, 0, 24, 4, 0, 0, 0, 0, 0, 0, 0, 1, 16, 0, 0, 0, 254, 255, 255, 255, 9, 0, 0, 0, 0, 0, 0,
    0, 0, 0, 0, 8, 1, 0, 0, 0, 0, 0, 0, 0, 1,
];

/// Posted; NotAsked; Ended; Stale, with the seat at generation 2; nothing.
static POSTS: [Row; 5] = [
    Row {
        hears: &[&[0, 0, 0, 0, 5]],
        gives: Comes::Posted,
        ended: None,
        says: &[],
    },
    Row {
        hears: &[&[0, 0, 0, 0, 8]],
        gives: Comes::Broken,
        ended: None,
        says: &[],
    },
    Row {
        hears: &[&[0, 0, 0, 0, 6]],
        gives: Comes::Broken,
        ended: Some(TakeFault::Ended),
        says: &[],
    },
    Row {
        hears: &[&[0, 0, 0, 8, 7, 0, 0, 0, 0, 0, 0, 0, 2]],
        gives: Comes::Broken,
        ended: Some(TakeFault::Stale(2)),
        says: &[],
    },
    Row {
        hears: &[],
        gives: Comes::Broken,
        ended: None,
        says: &[],
    },
];

/// Makes a `take`, and returns what it gives.
fn taken(channel: &mut SocketChannel<&[u8], &mut Vec<u8>>) -> Comes {
    match channel.take() {
        NextAsk::Ask(ask) => {
            let unique = ask.unique;
            drop(ask);
            Comes::Ask(unique)
        }
        NextAsk::Empty => Comes::Empty,
        NextAsk::Stopped => Comes::Stopped,
        NextAsk::Broken => Comes::Broken,
    }
}

/// Posts ENOENT to unique 9, and returns what that gives. If `takes_next`, a take is asked for with it.
fn posted(channel: &mut SocketChannel<&[u8], &mut Vec<u8>>, takes_next: bool) -> Comes {
    let reply = Reply {
        unique: 9,
        answer: Answer::Error(Errno::ENOENT),
    };
    match channel.post(&reply, takes_next) {
        Posted::Done => Comes::Posted,
        Posted::Broken => Comes::Broken,
    }
}

/// What is called of a channel.
#[derive(Clone, Copy)]
enum Calls {
    Take,
    Post,
    /// A `post` that asks for the next ask too, and the `take` behind it where the reply was posted.
    PostAndTake,
}

/// Makes `calls` of a channel that hears the bytes of `hears`, and says what `said` has then. Returns what the last one
/// gives, and why the broker has no more. Returns none if memory was refused.
fn called(
    alloc: Global,
    hears: &[u8],
    said: &mut Vec<u8>,
    calls: Calls,
) -> Option<(Comes, Option<TakeFault>)> {
    let Ok(mut channel) = SocketChannel::new(alloc, hears, said, 1) else {
        return None;
    };
    let gives = match calls {
        Calls::Take => taken(&mut channel),
        Calls::Post => posted(&mut channel, false),
        Calls::PostAndTake => match posted(&mut channel, true) {
            Comes::Posted => taken(&mut channel),
            gives => gives,
        },
    };
    let ended = channel.ended();
    drop(channel);
    Some((gives, ended))
}

/// Returns whether `calls` of a channel that hears `front` and then the bytes of `row` give what `row` says. The channel has
/// to say `text` first.
fn gives_so(alloc: Global, row: &Row, calls: Calls, front: &[u8], text: &[u8]) -> bool {
    let mut hears = Vec::new(alloc);
    let mut said = Vec::new(alloc);
    let so = are_put(&mut hears, &[front])
        && are_put(&mut hears, row.hears)
        && called(alloc, hears.as_slice(), &mut said, calls) == Some((row.gives, row.ended))
        && said.as_slice().get(..text.len()) == Some(text)
        && said.as_slice().get(text.len()..) == Some(row.says);
    drop(hears);
    drop(said);
    so
}

/// Calls `gives_so` with each of `rows`, and once more if the first call returned false.
fn all_give_so(alloc: Global, rows: &[Row], calls: Calls, front: &[u8], text: &[u8]) -> bool {
    let mut so = true;
    for row in rows {
        so = so
            && (gives_so(alloc, row, calls, front, text)
                || gives_so(alloc, row, calls, front, text));
    }
    so
}

#[test]
fn a_channel_takes_what_it_hears(rt: HostRuntime) {
    assert!(rt; all_give_so(rt.alloc(), &TAKES, Calls::Take, &[], &TAKE));
}

#[test]
fn a_reply_is_done_where_it_was_posted(rt: HostRuntime) {
    assert!(rt; all_give_so(rt.alloc(), &POSTS, Calls::Post, &[], &POST));
}

/// The Take stands right behind the Post, before either is answered.
#[test]
fn a_reply_and_the_next_ask_go_in_one(rt: HostRuntime) {
    assert!(rt;
        all_give_so(
            rt.alloc(),
            &TAKES,
            Calls::PostAndTake,
            &POSTED,
            &POST_AND_TAKE
        )
    );
}

/// Nothing is taken behind a reply that was not posted.
#[test]
fn nothing_is_taken_behind_a_reply_that_is_refused(rt: HostRuntime) {
    assert!(rt;
        all_give_so(
            rt.alloc(),
            &POSTS[1..],
            Calls::PostAndTake,
            &[],
            &POST_AND_TAKE
        )
    );
}
