//! The laws of the table of phases, for every history: any messages and calls, in any order, any number of times. Each
//! law is the contract of a function that does nothing, over the definitions that the contracts of `Node` cite.
ghost use Rattle.takeover_core.specs.Laws.{ServesOnlyWhereGiven, EndedStaysEnded, ServesAgainOnlyByClaim, MakesDataOnce, TakesWhileServing, ClaimsWhileHolding, CanBeLeft, GoneForGood, ChoosesGreatestCommon};

/// States that a daemon has the seat only at a generation at which it mounted or which it claimed.
pub fn serves_only_where_given()
    ensures law { ServesOnlyWhereGiven }
{}

/// States that a session that a daemon began and that ended is never taken up again, whatever comes late.
pub fn ended_stays_ended()
    ensures law { EndedStaysEnded }
{}

/// States that a daemon that handed its data over serves again only after a claim succeeded.
pub fn serves_again_only_by_claim()
    ensures law { ServesAgainOnlyByClaim }
{}

/// States that a daemon hands the data of a session over at most once, in one message or in parts.
pub fn makes_data_once()
    ensures law { MakesDataOnce }
{}

/// States that a daemon takes requests in Serving and Draining only.
pub fn takes_while_serving()
    ensures law { TakesWhileServing }
{}

/// States that a daemon wants to claim in Holding only.
pub fn claims_while_holding()
    ensures law { ClaimsWhileHolding }
{}

/// States that each phase but Gone is left by some event other than a crash. Serving is left by an offer, if the daemon
/// has a version, and neither sessions nor generations are used up.
pub fn can_be_left()
    ensures law { CanBeLeft }
{}

/// States that a daemon that is gone stays gone.
pub fn gone_for_good()
    ensures law { GoneForGood }
{}

/// States that a session is begun with the greatest version that both daemons have.
pub fn chooses_greatest_common()
    ensures law { ChoosesGreatestCommon }
{}
