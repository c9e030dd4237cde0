//! What one daemon serves.
//!
//! `served serve LIMIT MANIFEST: ok` begins to serve the manifest in a text, with a backing that never fails.
//! `backing fail ANSWERS: ok`: the backing answers ANSWERS times from then on, fails once, and answers again.
//! `served ask REQUEST..: ANSWER | none`.
//! `served state NUMBER..: COUNT.. next NUMBER bad ITEMS file ID` tells the count of each number, the next number, how
//! many items of forgets were bad, and the next file. `served known NUMBER: yes | no`.
//! The other calls stand in `handing.rt`.
use crate::handing::call_handing;
use crate::hosted::{Hosted, Plan};
use crate::{Serving, read_usize};
use eden_base::{Errno, Number};
use fuse_ops::Served;
use fuse_wire::Answer;
use row_words::{Output, RowFault, Words, read_request, tell_answer};

/// Tells the count of each number of `words`.
fn tell_counts(served: &Served, words: &mut Words<'_>, output: &mut Output) {
    for _number in 0..64u32 {
        if !words.has_more() {
            break;
        }
        output.number(served.map().count(Number(words.number())));
    }
}

/// Tells the counts of numbers, the next number, how many items were bad, and the next file.
fn state(served: &Served, words: &mut Words<'_>, output: &mut Output) -> Result<(), RowFault> {
    tell_counts(served, words, output);
    words.end()?;
    output.word("next");
    output.number(served.map().next());
    output.word("bad");
    output.number(served.map().bad_items());
    output.word("file");
    output.number(served.tree().next_file().0);
    Ok(())
}

/// Tells whether a number is known.
fn known(served: &Served, words: &mut Words<'_>, output: &mut Output) -> Result<(), RowFault> {
    let number = Number(words.number());
    words.end()?;
    output.flag(served.map().known(number));
    Ok(())
}

/// Answers a request with a backing that fails as `plan` says. If memory is refused, `plan` stays as it is.
fn ask(
    hosted: &mut Hosted,
    plan: &mut Plan,
    words: &mut Words<'_>,
    output: &mut Output,
) -> Result<(), RowFault> {
    let request = read_request(hosted.alloc(), words)?;
    let mut later = *plan;
    let answer = hosted.apply(&mut later, &request);
    drop(request);
    match answer {
        Some(Answer::Error(Errno::ENOMEM)) => return Err(RowFault::NoMemory),
        Some(answer) => tell_answer(output, &answer),
        None => output.word("none"),
    }
    *plan = later;
    Ok(())
}

impl Serving {
    /// Makes a call of `backing`.
    pub(crate) fn plan(
        &mut self,
        words: &mut Words<'_>,
        output: &mut Output,
    ) -> Result<(), RowFault> {
        if words.word() != b"fail".as_slice() {
            words.refuse();
        }
        let answers = words.number();
        words.end()?;
        self.plan = Plan {
            answers,
            has_failed: false,
        };
        output.word("ok");
        Ok(())
    }

    /// Begins to serve a manifest.
    fn serve(&mut self, words: &mut Words<'_>, output: &mut Output) -> Result<(), RowFault> {
        let limit = read_usize(words);
        let text = words.bytes();
        words.end()?;
        self.hosted = Some(Hosted::of(self.alloc, text.as_slice(), limit)?);
        self.plan = Plan::NEVER;
        output.word("ok");
        Ok(())
    }

    /// Makes a call of `served`.
    pub(crate) fn call(
        &mut self,
        words: &mut Words<'_>,
        output: &mut Output,
    ) -> Result<(), RowFault> {
        let call = words.word();
        if call == b"serve".as_slice() {
            return self.serve(words, output);
        }
        let Some(hosted) = self.hosted.as_mut() else {
            return Err(RowFault::BadRow);
        };
        match call {
            b"ask" => ask(hosted, &mut self.plan, words, output),
            b"state" => state(hosted.served(), words, output),
            b"known" => known(hosted.served(), words, output),
            _ => call_handing(hosted, call, words, output),
        }
    }
}
