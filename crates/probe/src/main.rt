//! Calls of the other crates, as lines of text: `probe FILE..` makes the call of each row of a file of cases, and tells
//! each row whose result is not the one that the row has.
#![tactic(auto)]

mod cases;
mod rows;
mod subjects;
mod templates;

use crate::cases::{Tally, run_file};
use std::process::ExitCode;
use std::{env, io};

const USAGE: &str = "usage: probe FILE.. [--case TITLE]";

/// Returns the words that the program was started with.
fn words_of(rt: &HostRuntime) -> io::Result<Vec<String>> {
    let mut words = Vec::new(rt.alloc());
    for word in env::args(rt)?.skip(1) {
        words.push(word)?;
    }
    Ok(words)
}

/// Returns the word behind `--case`, if there is one.
fn title_in(words: &[String]) -> Option<&[u8]> {
    let place = words.iter().position(|word| word.as_str() == "--case")?;
    let title = words.get(place.checked_add(1)?)?;
    Some(title.as_str().as_bytes())
}

/// Runs the files that the words before `--case` name, and returns how many rows there were, and how many differ.
fn run_files(rt: &HostRuntime, words: &[String]) -> io::Result<Tally> {
    let title = title_in(words);
    let mut tally = Tally::default();
    for word in words {
        if word.as_str() == "--case" {
            break;
        }
        tally.add(run_file(rt, word.as_str(), title)?);
    }
    Ok(tally)
}

/// Calls `words_of`, and once more if that failed.
fn words_again(rt: &HostRuntime) -> io::Result<Vec<String>> {
    match words_of(rt) {
        Ok(words) => Ok(words),
        Err(_) => words_of(rt),
    }
}

/// Runs the program by its words.
fn run(rt: &HostRuntime) -> io::Result<Tally> {
    let words = words_again(rt)?;
    run_files(rt, words.as_slice())
}

fn main(rt: HostRuntime) -> ExitCode {
    match run(&rt) {
        Ok(tally) if tally.rows == 0 => {
            let _printed = eprintln!(rt; "{USAGE}");
            ExitCode::from(2)
        }
        Ok(tally) if tally.differ == 0 => ExitCode::SUCCESS,
        Ok(_) => ExitCode::FAILURE,
        Err(error) => {
            let _printed = eprintln!(rt; "probe: {error}");
            ExitCode::FAILURE
        }
    }
}
