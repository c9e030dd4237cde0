//! The laws of frames and streams. Each law is the contract of a function that does nothing, over the definitions that
//! the contracts of `Frame` cite.
ghost use Rattle.frames.specs.Laws.{EndsAsItParts, EndsOneWay, FaultStays, FramesJoin, HasAParting, HasOneParting, MoreChangesNothing, PiecesJoin, ReadsWhatWasWritten, SaysWhatIsRead};

/// States that the text of a frame is read as that frame, whatever bytes follow, and that these bytes are left unread.
pub fn reads_what_was_written()
    ensures law { ReadsWhatWasWritten }
{}

/// States that a first frame, or a fault, stays the same whatever bytes follow: so the pieces in which a stream comes
/// make no difference.
#[tactic(auto, using(crate::proofs::GrowingLaws::grows))]
pub fn more_changes_nothing()
    ensures law { MoreChangesNothing }
{}

/// States that what is read at the front of a stream is what the texts of frames say is there, and that these texts
/// never say two things.
pub fn says_what_is_read()
    ensures law { SaysWhatIsRead }
{}

/// States that a stream ends in one way only.
pub fn ends_one_way()
    ensures law { EndsOneWay }
{}

/// States that frames at the front of what was fed are still at the front when more is fed.
pub fn pieces_join()
    ensures law { PiecesJoin }
{}

/// States that a frame that is taken next follows the frames that were taken before.
pub fn frames_join()
    ensures law { FramesJoin }
{}

/// States that each stream consists of whole frames and a tail: bytes in which no frame is whole, or a faulty frame and
/// what follows.
pub fn has_a_parting()
    ensures law { HasAParting }
{}

/// States that a stream consists of whole frames and a tail in one way only. So the frames and the fault are those of
/// the stream, whatever the pieces in which it is fed, and whenever frames are taken.
pub fn has_one_parting()
    ensures law { HasOneParting }
{}

/// States that a faulty frame still follows the same frames, whatever bytes follow.
pub fn fault_stays()
    ensures law { FaultStays }
{}

/// States that a stream ends as its tail says: torn exactly if bytes are left in which no frame is whole.
pub fn ends_as_it_parts()
    ensures law { EndsAsItParts }
{}
