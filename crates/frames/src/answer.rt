//! The answer to a Take or a Post, as the bytes of its frame say.
ghost use Rattle.std.specs.Prelude.{◌≡◌, ◌++◌, Ok, true, is_ok, length, IfOk, IfErr};
ghost use Rattle.byte_codec.specs.Field.{AreBytes};
ghost use Rattle.frames.specs.declared.fault.FrameFault.TheVariants.{BadBody};
ghost use Rattle.frames.specs.Answer.{IsAnswer, answer_by};
ghost use Rattle.frames.specs.Lacking.{lacking};
ghost use Rattle.frames.specs.Reading.{Faulty, frame_of, said};

use crate::FrameFault;
use crate::front::{LENGTH, is_body};
use crate::kind::FrameKind;
use byte_codec::u64_in;

/// What the broker answers to a Take or a Post. It holds no memory: the request of an `Ask` is the body of the frame.
#[derive(Clone, Copy)]
pub enum BrokerAnswer {
    /// The FUSE request that was taken.
    Ask,
    /// No FUSE request is handed out now.
    Empty,
    /// The reply was accepted.
    Posted,
    /// The mount is over.
    Ended,
    /// The seat is at generation `now`.
    Stale { now: u64 },
    /// A frame of any other kind.
    Other,
}

/// Returns the answer that a frame of this kind and with this body is.
#[tactic(auto, unfolding(crate::specs::Reading::frame_of, crate::specs::Reading::alone))]
fn answer_by(kind: FrameKind, body: &[u8]) -> BrokerAnswer
    requires whole { is_ok (frame_of kind body.now) ≡ true }
    ensures answer { result ≡ answer_by kind body.now }
    ensures bytes { AreBytes body.now }
{
    match kind {
        FrameKind::Ask => BrokerAnswer::Ask,
        FrameKind::Empty => BrokerAnswer::Empty,
        FrameKind::Posted => BrokerAnswer::Posted,
        FrameKind::Ended => BrokerAnswer::Ended,
        FrameKind::Stale => BrokerAnswer::Stale { now: u64_in(body) },
        _ => BrokerAnswer::Other,
    }
}

impl BrokerAnswer {
    /// Reads the answer from a head of five bytes and a body, whose length is what `missing` returns for the head. Takes
    /// no memory.
    #[tactic(auto, using(crate::proofs::AnswerLaws::bad_answer, crate::proofs::AnswerLaws::is_answer, crate::proofs::LackingLaws::kind_there))]
    pub fn of_parts(head: &[u8], body: &[u8]) -> Result<BrokerAnswer, FrameFault>
        requires head { length head.now ≡ 5 }
        requires body { lacking head.now ≡ Ok (length body.now) }
        ensures answer { IfOk result (IsAnswer (head.now ++ body.now) body.now) }
        ensures faulty { IfErr result (λ fault. said (head.now ++ body.now) ≡ Faulty fault) }
        ensures bad { IfErr result (λ fault. fault ≡ BadBody) }
    {
        match FrameKind::with(head[LENGTH]) {
            Some(kind) => {
                if !is_body(kind, body) {
                    return Err(FrameFault::BadBody);
                }
                Ok(answer_by(kind, body))
            }
            None => Err(FrameFault::BadKind),
        }
    }
}
