//! Laws of the definitions alone. A caller whose proof needs a law calls its function, which does nothing.
ghost use Rattle.map_codec.specs.Laws.{CanBeTaken, HandedIsNoLonger, TakenKnows};

/// States that a daemon that takes over knows what the other one knew, and that nothing prevents the takeover.
pub fn handover_keeps_what_is_known()
    ensures keeps { TakenKnows }
    ensures taken { CanBeTaken }
{}

/// States that what is handed over is no longer than the longest text of its version.
pub fn handover_keeps_to_the_longest()
    ensures keeps { HandedIsNoLonger }
{}
