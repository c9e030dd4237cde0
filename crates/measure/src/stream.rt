//! What frames cost, so that the instructions of a call can be counted: `measure frames FORM ROUNDS` writes a frame in
//! each round.
use crate::figures::Figures;
use crate::words::number_at;
use byte_codec::Bytes;
use eden_base::NoMemory;
use frames::{Frame, FrameFault};
use std::alloc::{AllocError, Global};
use takeover_core::Message;

const FORMS: [&str; 3] = ["claim", "ask", "data"];

/// How many bytes an Ask carries: as many as a LOOKUP of a name of three bytes has.
const ASK: usize = 44;

/// How many bytes a Data carries at most, after its session and its generation.
const LONGEST_DATA: usize = 65_524;

/// Makes a frame of a form.
fn frame_of(alloc: Global, form: &str) -> Result<Frame, AllocError> {
    match form {
        "ask" => Ok(Frame::Ask(Bytes::of(Vec::from_elem(alloc, 1, ASK)?))),
        "data" => Ok(Frame::Takeover(Message::Data {
            session: 1,
            generation: 1,
            bytes: Bytes::of(Vec::from_elem(alloc, 1, LONGEST_DATA)?),
        })),
        _ => Ok(Frame::Claim { generation: 1 }),
    }
}

#[inline(never)]
fn write(alloc: Global, frame: &Frame) -> Result<Vec<u8>, FrameFault> {
    frame.write(alloc)
}

/// Writes `frame` `rounds` times, and returns how often its text was made.
fn write_each(alloc: Global, frame: &Frame, rounds: u32) -> u32 {
    let mut written = 0u32;
    for _ in 0..rounds {
        if write(alloc, frame).is_ok() {
            written = written.wrapping_add(1);
        }
    }
    written
}

/// Measures frames of a form, as `words` say.
pub(crate) fn measure(alloc: Global, words: &[&str]) -> Result<Option<Figures>, NoMemory> {
    let (Some(form), Some(rounds)) = (words.first(), number_at(words, 1)) else {
        return Ok(None);
    };
    if !FORMS.contains(form) {
        return Ok(None);
    }
    let frame = frame_of(alloc, form)?;
    let written = write_each(alloc, &frame, rounds);
    drop(frame);
    Ok(Some(Figures::of(&["written"], &[u64::from(written)])))
}
