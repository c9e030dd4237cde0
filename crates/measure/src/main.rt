//! What calls cost: `measure SUBJECT WORD..` makes the calls of one subject, so that their instructions can be counted,
//! or prints their times. Without words the program makes a small run of each subject.
#![tactic(auto)]

mod arena;
mod bytes;
mod clock;
mod figures;
mod image;
mod lines;
mod listing;
mod map;
mod messages;
mod names;
mod queue;
mod random;
mod requests;
mod round;
mod rounds;
mod stream;
mod tree;
mod wire;
mod words;

use eden_base::NoMemory;
use figures::Figures;
use std::env;
use std::io::{self, Error, ErrorKind};
use std::rt::Clock;
use std::sync::Wait;
use std::thread::Threads;
use words::refuse;

/// The small runs: each is the words with which the program could be started.
static RUNS: [&str; 57] = [
    "arena 1",
    "arena 1024",
    "arena 65536",
    "queue 16",
    "queue 4096",
    "checkout 1000",
    "checkout 8000",
    "checkout 65536",
    "image 1000 0",
    "image 1000 100",
    "image 3000 0",
    "image 3000 300",
    "image 64000 0",
    "map 1000",
    "map 8000",
    "map 64000",
    "map 1000 holes",
    "map 1000 given",
    "map 8000 given",
    "map 65536 given",
    "map 1000 random",
    "map 64000 random",
    "requests 1000 1",
    "requests 8000 16",
    "requests 40000 700",
    "requests 1000 random",
    "requests 64000 random",
    "messages 1000",
    "messages 64000",
    "listing 1000 1000",
    "listing 64000 1000",
    "listing 1000 64000",
    "listing 8000 1000 changed",
    "listing 64000 1000 changed",
    "listing 64000 1000 gone",
    "wire lookup 10",
    "wire getattr 10",
    "wire forget 10",
    "wire batch 10",
    "wire short 10",
    "wire bad-length 10",
    "wire bad-body 10",
    "wire bad-count 10",
    "wire bad-name 10",
    "frames claim 10",
    "frames ask 10",
    "frames data 10",
    "journal 100 1 2",
    "journal 100 16 2",
    "journal 1000 1 2",
    "journal 1000 16 2",
    "journal 10000 1 2",
    "journal 10000 16 2",
    "rounds 1 0 2",
    "rounds 1 64 2",
    "rounds 4 64 2",
    "rounds 16 64 2",
];

/// Makes the calls of `subject`, as `words` say, and returns the figures. Returns none if these are not words of the
/// subject. `threads` is the handle by which rounds start their workers.
fn figures_of<R: Threads + Wait + Clock + Sync>(
    rt: &HostRuntime,
    threads: &R,
    subject: &str,
    words: &[&str],
) -> Result<Option<Figures>, NoMemory> {
    match subject {
        "arena" => arena::measure(rt, words),
        "queue" => queue::measure(rt.alloc(), words),
        "checkout" => tree::measure(rt, words),
        "image" => image::measure(rt, words),
        "map" => map::measure(rt.alloc(), words),
        "messages" => messages::measure(rt.alloc(), words),
        "listing" => listing::measure(rt.alloc(), words),
        "requests" => requests::measure(rt.alloc(), words),
        "wire" => wire::measure(rt.alloc(), words),
        "frames" => stream::measure(rt.alloc(), words),
        "journal" => round::measure(rt.alloc(), words),
        "rounds" => rounds::measure(threads, rt.alloc(), words),
        _ => Ok(None),
    }
}

/// Makes the calls that the words of `line` ask for, and prints their figures.
fn measure<R: Threads + Wait + Clock + Sync>(
    rt: &HostRuntime,
    threads: &R,
    line: &str,
) -> io::Result<()> {
    let words: Vec<&str> = line.split_whitespace().collect(rt.alloc())?;
    let figures = match words.as_slice() {
        [] => Ok(None),
        [subject, rest @ ..] => figures_of(rt, threads, subject, rest),
    };
    drop(words);
    match figures {
        Ok(Some(figures)) => figures.print(rt, line),
        Ok(None) => refuse(rt),
        Err(NoMemory) => Err(Error::from(ErrorKind::OutOfMemory)),
    }
}

/// Makes the small runs.
fn measure_each<R: Threads + Wait + Clock + Sync>(rt: &HostRuntime, threads: &R) -> io::Result<()> {
    for line in &RUNS {
        measure(rt, threads, line)?;
    }
    Ok(())
}

/// Returns the words that the program was started with, as a line.
fn line_of(rt: &HostRuntime) -> io::Result<String> {
    let mut line = String::new(rt.alloc());
    for word in env::args(rt)?.skip(1) {
        line.push_str(word.as_str())?;
        line.push_str(" ")?;
    }
    Ok(line)
}

fn main(rt: HostRuntime) -> io::Result<()> {
    let line = line_of(&rt)?;
    if line.is_empty() {
        return measure_each(&rt, &rt);
    }
    measure(&rt, &rt, line.as_str().trim_end())
}
