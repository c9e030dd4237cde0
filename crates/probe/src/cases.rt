//! A file of cases: its rows, run one after another.
use crate::rows::{Came, Rows};
use crate::subjects::Subjects;
use eden_base::cut;
use row_words::{Output, RowFault};
use std::alloc::{AllocError, Global};
use std::fs::File;
use std::io::{self, Error, ErrorKind, Read};

/// How many rows of a file are told that differ.
const MOST_SHOWN: u64 = 20;

/// How many lines of a file are gone through, those of loops counted each time.
const MOST_STEPS: u64 = 1 << 32;

/// How many rows there were, and how many had another result.
#[derive(Clone, Copy, Default)]
pub(crate) struct Tally {
    pub(crate) rows: u64,
    pub(crate) differ: u64,
}

impl Tally {
    /// Adds the counts of another file.
    pub(crate) fn add(&mut self, other: Tally) {
        self.rows = self.rows.saturating_add(other.rows);
        self.differ = self.differ.saturating_add(other.differ);
    }

    /// Counts a line that came to `came`.
    fn count(&mut self, came: Came) {
        let (rows, differ) = match came {
            Came::NoRow => (0, 0),
            Came::AsSaid => (1, 0),
            Came::Otherwise => (1, 1),
        };
        self.add(Tally { rows, differ });
    }
}

/// Reads the file at `path`.
fn read_file(rt: &HostRuntime, path: &str) -> io::Result<Vec<u8>> {
    let mut file = File::open(rt, path)?;
    let mut bytes = Vec::new(rt.alloc());
    let read = file.read_to_end(&mut bytes);
    drop(file);
    read?;
    Ok(bytes)
}

/// Calls `read_file`, and once more if that failed.
fn read_file_again(rt: &HostRuntime, path: &str) -> io::Result<Vec<u8>> {
    match read_file(rt, path) {
        Ok(text) => Ok(text),
        Err(_) => read_file(rt, path),
    }
}

/// Splits `text` into its lines.
fn lines_of(alloc: Global, text: &[u8]) -> Result<Vec<&[u8]>, RowFault> {
    let mut lines = Vec::new(alloc);
    let mut rest = text;
    for _line in 0..text.len() {
        let Some((line, behind)) = cut(rest, b'\n') else {
            break;
        };
        lines.push(line)?;
        rest = behind;
    }
    Ok(lines)
}

/// Calls `lines_of`, and once more if memory was refused.
fn lines_again(alloc: Global, text: &[u8]) -> Option<Vec<&[u8]>> {
    match lines_of(alloc, text) {
        Ok(lines) => Some(lines),
        Err(_) => lines_of(alloc, text).ok(),
    }
}

/// Makes an empty result, and tries once more if memory was refused.
fn told_again(alloc: Global) -> Result<Output, AllocError> {
    match Output::new(alloc) {
        Ok(output) => Ok(output),
        Err(_) => Output::new(alloc),
    }
}

/// Tells that the row in line `index` of the file at `path` came to `output`.
fn tell(
    rt: &HostRuntime,
    path: &str,
    index: usize,
    line: &[u8],
    output: &Output,
) -> io::Result<()> {
    let number = index.saturating_add(1);
    let row = str::from_utf8(line).unwrap_or("");
    let output = output.as_str();
    println!(rt; "{path}:{number}: {row}, but it is {output}")
}

/// Runs the rows in `lines`, and tells those that differ.
fn run_lines(
    rt: &HostRuntime,
    path: &str,
    lines: &[&[u8]],
    title: Option<&[u8]>,
) -> io::Result<Tally> {
    let mut tally = Tally::default();
    let output = told_again(rt.alloc())?;
    let mut rows = Rows::new(rt.alloc(), title, output);
    let mut subjects = Subjects::new(rt.alloc());
    for _step in 0..MOST_STEPS {
        let index = rows.next;
        let Some(line) = lines.get(index) else {
            break;
        };
        rows.next = index.wrapping_add(1);
        let came = rows.go_on(rt, &mut subjects, line);
        tally.count(came);
        if came == Came::Otherwise && tally.differ <= MOST_SHOWN {
            tell(rt, path, index, line, &rows.output)?;
        }
    }
    Ok(tally)
}

/// Runs the file at `path`, or the case of it that `title` names, and prints how many rows it has and how many differ.
pub(crate) fn run_file(rt: &HostRuntime, path: &str, title: Option<&[u8]>) -> io::Result<Tally> {
    let text = read_file_again(rt, path)?;
    let Some(lines) = lines_again(rt.alloc(), text.as_slice()) else {
        return Err(Error::from(ErrorKind::OutOfMemory));
    };
    let tally = run_lines(rt, path, lines.as_slice(), title)?;
    let rows = tally.rows;
    let differ = tally.differ;
    println!(rt; "{path}: {rows} rows, {differ} differ")?;
    Ok(tally)
}
