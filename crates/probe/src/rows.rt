//! The rows of a file of cases, as they are gone through.
use crate::subjects::Subjects;
use crate::templates::{Loop, fill};
use eden_base::cut;
use row_words::{Output, RowFault, Texts, Words, bytes_of, decimal};
use std::alloc::Global;

/// How many loops may stand in one another.
const MOST_LOOPS: usize = 4;

/// What a line came to.
#[derive(Clone, Copy, PartialEq, Eq)]
pub(crate) enum Came {
    /// The line is no row, or one of a case that isn't wanted.
    NoRow,
    /// The result is the one that the row has.
    AsSaid,
    /// The result is another one.
    Otherwise,
}

/// What a line of a file is.
#[derive(Clone, Copy, PartialEq, Eq)]
enum Form {
    /// Nothing, or a comment behind `#`.
    Blank,
    /// `case TITLE`: forgets all values.
    Case,
    /// `text NAME WORD`: names bytes.
    Text,
    /// `|NAME LINE`: a line more of a text.
    Line,
    /// `each NAME FIRST LAST`: a loop over the lines up to its end.
    Each,
    /// `end`: the end of a loop.
    End,
    /// `CALL = RESULT`.
    Row,
}

/// Returns what `line` is.
fn form_of(line: &[u8]) -> Form {
    match line.first() {
        None | Some(b'#') => return Form::Blank,
        Some(b'|') => return Form::Line,
        Some(_) => {}
    }
    match cut(line, b' ') {
        Some((b"case", _)) => Form::Case,
        Some((b"text", _)) => Form::Text,
        Some((b"each", _)) => Form::Each,
        None if line == b"end".as_slice() => Form::End,
        _ => Form::Row,
    }
}

/// What is known between two lines of a file.
#[derive(Drop)]
pub(crate) struct Rows<'a> {
    alloc: Global,
    /// The title of the case that is wanted, or none where all are.
    title: Option<&'a [u8]>,
    is_wanted: bool,
    loops: Vec<Loop<'a>>,
    texts: Texts,
    /// The result of the last row.
    pub(crate) output: Output,
    /// The index of the next line.
    pub(crate) next: usize,
}

/// Returns the index of the first ` = ` in `line`.
fn sign_in(line: &[u8]) -> Option<usize> {
    let mut before = [0, 0];
    for (index, byte) in line.iter().enumerate() {
        if before == [b' ', b'='] && *byte == b' ' {
            return index.checked_sub(2);
        }
        before = [before[1], *byte];
    }
    None
}

/// Parts a row into its call and the result that it has.
fn parted(line: &[u8]) -> Option<(&[u8], &[u8])> {
    let place = sign_in(line)?;
    match (line.get(..place), line.get(place.saturating_add(3)..)) {
        (Some(call), Some(said)) => Some((call, said)),
        _ => None,
    }
}

/// Makes the call of a row, and writes its result to `output`.
fn call(
    rt: &HostRuntime,
    subjects: &mut Subjects,
    texts: &Texts,
    row: &[u8],
    output: &mut Output,
) -> Result<(), RowFault> {
    output.clear();
    let mut words = Words::of(rt.alloc(), texts, row);
    subjects.call(&mut words, output)
}

/// Makes the call of a row, and once more if memory was refused, since such a call changed nothing.
fn call_again(
    rt: &HostRuntime,
    subjects: &mut Subjects,
    texts: &Texts,
    row: &[u8],
    output: &mut Output,
) {
    let called = match call(rt, subjects, texts, row, output) {
        Err(RowFault::NoMemory) => call(rt, subjects, texts, row, output),
        called => called,
    };
    if let Err(fault) = called {
        output.clear();
        output.word(fault.name());
    }
}

/// Returns whether `output` is the result that a row has: that text, or the bytes that `@` and a name stand for.
fn is_said(alloc: Global, texts: &Texts, said: &[u8], output: &Output) -> Result<bool, RowFault> {
    if said.first() != Some(&b'@') {
        return Ok(said == output.as_str().as_bytes());
    }
    let bytes = bytes_of(alloc, texts, said)?;
    let mut spelled = Output::new(alloc)?;
    spelled.bytes(bytes.as_slice());
    Ok(spelled.as_str() == output.as_str())
}

/// Calls `is_said`, and once more if memory was refused.
fn is_said_again(alloc: Global, texts: &Texts, said: &[u8], output: &Output) -> bool {
    match is_said(alloc, texts, said, output) {
        Err(RowFault::NoMemory) => is_said(alloc, texts, said, output) == Ok(true),
        is_said => is_said == Ok(true),
    }
}

/// Returns the loop that the filled `line` begins, with its name in `template` and its lines from index `first` on.
fn loop_of<'a>(template: &'a [u8], line: &[u8], first: usize) -> Option<Loop<'a>> {
    let (_, named) = cut(template, b' ')?;
    let (name, _) = cut(named, b' ')?;
    let (_, behind) = cut(line, b' ')?;
    let (_, range) = cut(behind, b' ')?;
    let (value, last) = cut(range, b' ')?;
    let value = decimal(value)?;
    let last = decimal(last)?;
    if value > last {
        return None;
    }
    Some(Loop {
        name,
        value,
        last,
        first,
    })
}

impl<'a> Rows<'a> {
    /// Makes what is known before the first line. `title` is that of the case that is wanted, or none where all are.
    pub(crate) fn new(alloc: Global, title: Option<&'a [u8]>, output: Output) -> Rows<'a> {
        Rows {
            alloc,
            title,
            is_wanted: title.is_none(),
            loops: Vec::new(alloc),
            texts: Texts::new(alloc),
            output,
            next: 0,
        }
    }

    /// Begins a loop, as the filled `line` says. `template` has the name of its value.
    fn begin_loop(&mut self, template: &'a [u8], line: &[u8]) -> Result<(), RowFault> {
        match loop_of(template, line, self.next) {
            Some(begun) if self.loops.len() < MOST_LOOPS => {
                self.loops.push(begun)?;
                Ok(())
            }
            _ => Err(RowFault::BadRow),
        }
    }

    /// Goes back to the first line of the last loop, or leaves that loop. Returns whether there is a loop.
    fn end_loop(&mut self) -> bool {
        let Some(last) = self.loops.last_mut() else {
            return false;
        };
        if last.value < last.last {
            last.value = last.value.wrapping_add(1);
            self.next = last.first;
        } else {
            let _ended = self.loops.pop();
        }
        true
    }

    /// Begins the case that `line` names: forgets the values of the last one.
    fn begin_case(&mut self, subjects: &mut Subjects, line: &[u8]) {
        let title = cut(line, b' ').map(|(_, title)| title);
        self.is_wanted = self.title.is_none() || self.title == title;
        subjects.clear(self.alloc);
    }

    /// Has a name stand for the bytes behind it.
    fn name_text(&mut self, line: &[u8]) -> Result<(), RowFault> {
        let (_, rest) = cut(line, b' ').ok_or(RowFault::BadRow)?;
        let (name, word) = cut(rest, b' ').ok_or(RowFault::BadRow)?;
        let bytes = bytes_of(self.alloc, &self.texts, word)?;
        self.texts.set(self.alloc, name, bytes)
    }

    /// Appends the line behind a bar and a name to the text of that name.
    fn append_text(&mut self, line: &[u8]) -> Result<(), RowFault> {
        let (_, rest) = cut(line, b'|').ok_or(RowFault::BadRow)?;
        let (name, text) = cut(rest, b' ').unwrap_or((rest, &[]));
        self.texts.append(self.alloc, name, text)
    }

    /// Makes the call of a row, and compares its result with the one that the row has.
    fn run(&mut self, rt: &HostRuntime, subjects: &mut Subjects, line: &[u8]) -> Came {
        match parted(line) {
            Some((row, said)) => {
                call_again(rt, subjects, &self.texts, row, &mut self.output);
                if is_said_again(self.alloc, &self.texts, said, &self.output) {
                    Came::AsSaid
                } else {
                    Came::Otherwise
                }
            }
            None => self.refuse(),
        }
    }

    /// Tells that a line is none that may stand there.
    fn refuse(&mut self) -> Came {
        self.output.clear();
        self.output.word(RowFault::BadRow.name());
        Came::Otherwise
    }

    /// Does what the filled `line` says. `template` is the line as it stands in the file.
    fn take(
        &mut self,
        rt: &HostRuntime,
        subjects: &mut Subjects,
        template: &'a [u8],
        line: &[u8],
    ) -> Result<Came, RowFault> {
        match form_of(template) {
            Form::Blank => {}
            Form::Case => self.begin_case(subjects, line),
            Form::Text => self.name_text(line)?,
            Form::Line => self.append_text(line)?,
            Form::Each => self.begin_loop(template, line)?,
            Form::End if self.end_loop() => {}
            Form::End => return Err(RowFault::BadRow),
            Form::Row => return Ok(self.run(rt, subjects, line)),
        }
        Ok(Came::NoRow)
    }

    /// Fills a line with the values of loops, and does what it says, unless it is a row of a case that isn't wanted.
    fn step(
        &mut self,
        rt: &HostRuntime,
        subjects: &mut Subjects,
        template: &'a [u8],
    ) -> Result<Came, RowFault> {
        if !self.is_wanted && form_of(template) == Form::Row {
            return Ok(Came::NoRow);
        }
        let mut line = Vec::new(self.alloc);
        let filled = fill(self.alloc, &mut line, self.loops.as_slice(), template);
        let came = match filled {
            Ok(()) => self.take(rt, subjects, template, line.as_slice()),
            Err(fault) => Err(fault),
        };
        drop(line);
        came
    }

    /// Goes on by a line, as `step` does, and once more if memory was refused before a call.
    pub(crate) fn go_on(
        &mut self,
        rt: &HostRuntime,
        subjects: &mut Subjects,
        template: &'a [u8],
    ) -> Came {
        let came = match self.step(rt, subjects, template) {
            Err(RowFault::NoMemory) => self.step(rt, subjects, template),
            came => came,
        };
        match came {
            Ok(came) => came,
            Err(_) => self.refuse(),
        }
    }
}
