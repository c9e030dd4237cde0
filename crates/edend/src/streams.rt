//! The standard streams, where the program was started without some of them.
use std::env;
use std::fs::{File, OpenOptions};
use std::io::{IsTerminal, Write};
use std::os::fd::AsRawFd;
use std::rt::{Env, Files, Stderr, Stdin};

/// The device that has nothing to read, and throws away what is written.
const NULL: &str = "/dev/null";

/// The number of standard error, which is the last of the standard streams.
const LAST: i32 = 2;

/// Files that keep the numbers of the standard streams which the program was started without.
#[derive(Drop)]
pub struct ReservedNumbers {
    _input: Option<File>,
    _others: [Option<File>; 2],
}

/// Opens a file in place of each standard stream that the program was started without. So no socket gets its number, and
/// with that what is printed. Nothing can be read from the first, and nothing written to the others.
pub fn reserve_numbers<R: Files<File = File>>(rt: &R) -> ReservedNumbers {
    let input = keep_up_to(OpenOptions::new().write(true).open(rt, NULL).ok(), 0);
    let output = keep_up_to(OpenOptions::new().read(true).open(rt, NULL).ok(), LAST);
    let errors = keep_up_to(OpenOptions::new().read(true).open(rt, NULL).ok(), LAST);
    ReservedNumbers {
        _input: input,
        _others: [output, errors],
    }
}

/// Returns `file` if its number is `last` at most, else none: it is closed.
fn keep_up_to(file: Option<File>, last: i32) -> Option<File> {
    file.filter(|file| file.as_raw_fd() <= last)
}

/// Says on standard error that a script is read from standard input, where that is a terminal and no word says so.
pub fn announce<R: Env + Alloc>(rt: &R, input: &Stdin, errors: Stderr) {
    let mut errors = errors;
    if input.is_terminal() && is_alone(rt) {
        let _said = writeln!(
            errors,
            "edend: reads a script from standard input, to its end"
        );
    }
}

/// Returns whether the program was started without a word.
fn is_alone<R: Env + Alloc>(rt: &R) -> bool {
    match env::args(rt) {
        Ok(words) => words.count() == 1,
        Err(_unknown) => false,
    }
}
