//! Laws of the definitions. A caller's proof cites a law by calling its function, which does nothing.
ghost use Rattle.daemon_desk.specs.Handover.{FramesAreRead, HandedHasFrame, HandedIsShort, PartsHaveFrames, ReadCanBeTaken, ReadKnows};

/// States that an image is at most as long as the longest text of its version. An image has one frame, or one frame for
/// each of its parts. If the frames' bytes are cut into any pieces, those frames alone are read. The image that they
/// carry can be taken over, and the restored state knows the same as the state that was handed over.
pub fn frames_keep_what_is_known()
    ensures short { HandedIsShort }
    ensures frame { HandedHasFrame }
    ensures parts { PartsHaveFrames }
    ensures read { FramesAreRead }
    ensures keeps { ReadKnows }
    ensures taken { ReadCanBeTaken }
{}
