//! Laws of the definitions. A caller's proof cites a law by calling its function, which does nothing.
ghost use Rattle.world.specs.Laws.{AnswerIsMove, ItemIsMove, JournalIsRun, MemberIsMove};

/// States that a legal step of a daemon is a move of the ideal world: an ask that is under way is answered, or an item
/// is applied. The daemon has to know what the ideal world has. If the step is on a member of the daemon's hand, the
/// state after the step matches the world after the move. The same holds of all steps of a round's journal.
pub fn step_is_move()
    ensures answers { AnswerIsMove }
    ensures items { ItemIsMove }
    ensures members { MemberIsMove }
    ensures journals { JournalIsRun }
{}
