//! Worked examples: the frames between daemons, and to the broker, from desk to desk.
mod lookups;
mod steps;

use crate::daemon_desk_tests::steps::{DeskReaction, Says, Step, all_go_so, all_go_so_in_parts};
use Step::{
    Claims, GivesUp, Hears, Lends, LooksUp, LooksUpEach, Mounts, Next, Offers, Prepares, Readies,
    Returns, Sent, Serves, Wants,
};
use daemon_desk::{Claiming, Mounting};

/// Daemon 0 mounts at generation 1.
const MOUNTS: Step = Mounts(0, Says::Mounted(1), Mounting::Serves(1));

static TAKEN_OVER: [Step; 33] = [
    Serves(0, None),
    Prepares(0),
    MOUNTS,
    Serves(0, Some(1)),
    LooksUp(0, 2),
    Offers(1),
    Lends(0, true),
    Hears(0, DeskReaction::Choice(1, 1)),
    Hears(1, DeskReaction::Accepts),
    Serves(0, Some(1)),
    Readies(0, DeskReaction::Nothing),
    Returns(0),
    LooksUp(0, 2),
    Readies(0, DeskReaction::Ready(1, 1)),
    Serves(0, None),
    Lends(0, false),
    Readies(0, DeskReaction::Nothing),
    Hears(1, DeskReaction::Pong(1)),
    Hears(0, DeskReaction::Data(1, 1)),
    Wants(0, None),
    Wants(1, None),
    Hears(1, DeskReaction::Accepts),
    Wants(1, Some(1)),
    Serves(1, None),
    Claims(1, Says::Claimed(2), Claiming::Serves(2)),
    Wants(1, None),
    Serves(1, Some(2)),
    LooksUp(1, 2),
    GivesUp(0, DeskReaction::Failed(1)),
    Wants(0, Some(1)),
    Claims(0, Says::Stale(2), Claiming::Stale),
    Wants(0, None),
    GivesUp(0, DeskReaction::Nothing),
];

#[test]
fn hands_over_to_a_new_daemon(rt: HostRuntime) {
    assert!(rt; all_go_so(rt.alloc(), &TAKEN_OVER, &[]));
}

static MOUNTED: [Step; 16] = [
    Mounts(0, Says::Mounted(1), Mounting::Broken),
    Prepares(0),
    Mounts(0, Says::Empty, Mounting::Broken),
    Mounts(0, Says::Claimed(1), Mounting::Broken),
    Mounts(0, Says::Pong(1), Mounting::Broken),
    Mounts(0, Says::Seated, Mounting::Seated),
    Mounts(0, Says::LastGeneration, Mounting::LastGeneration),
    Mounts(0, Says::Ended, Mounting::Ended),
    Serves(0, None),
    Lends(0, false),
    Mounts(0, Says::Mounted(7), Mounting::Serves(7)),
    Serves(0, Some(7)),
    Mounts(0, Says::Mounted(8), Mounting::Broken),
    Prepares(0),
    Mounts(0, Says::Mounted(8), Mounting::Broken),
    Serves(0, Some(7)),
];

#[test]
fn mounts_once_and_only_when_prepared(rt: HostRuntime) {
    assert!(rt; all_go_so(rt.alloc(), &MOUNTED, &[]));
}

static REFUSED: [Step; 12] = [
    Prepares(0),
    MOUNTS,
    Sent(0, Says::Offer(2), DeskReaction::NoCommon),
    Serves(0, Some(1)),
    Sent(1, Says::NoCommon, DeskReaction::Accepts),
    Sent(1, Says::Choice(1, 1), DeskReaction::Ignores),
    Sent(0, Says::Offer(1), DeskReaction::Choice(1, 1)),
    Sent(0, Says::Offer(1), DeskReaction::Busy),
    Sent(2, Says::Busy, DeskReaction::Accepts),
    Sent(2, Says::Choice(1, 1), DeskReaction::Ignores),
    GivesUp(2, DeskReaction::Nothing),
    Readies(0, DeskReaction::Ready(1, 1)),
];

#[test]
fn refuses_an_offer_of_other_versions_or_at_another_time(rt: HostRuntime) {
    assert!(rt; all_go_so(rt.alloc(), &REFUSED, &[]));
}

static CLOSED: [Step; 9] = [
    Prepares(0),
    MOUNTS,
    Sent(0, Says::Take(1), DeskReaction::Closes),
    Sent(0, Says::Empty, DeskReaction::Closes),
    Sent(0, Says::Ended, DeskReaction::Closes),
    Sent(0, Says::Claimed(2), DeskReaction::Closes),
    Sent(0, Says::Seated, DeskReaction::Closes),
    Sent(0, Says::Pong(1), DeskReaction::Ignores),
    Serves(0, Some(1)),
];

#[test]
fn closes_where_no_daemon_sends_such_a_frame(rt: HostRuntime) {
    assert!(rt; all_go_so(rt.alloc(), &CLOSED, &[]));
}

static LEFT_EARLY: [Step; 21] = [
    Prepares(0),
    MOUNTS,
    LooksUp(0, 2),
    GivesUp(0, DeskReaction::Nothing),
    Offers(1),
    Lends(0, true),
    Hears(0, DeskReaction::Choice(1, 1)),
    GivesUp(0, DeskReaction::Failed(1)),
    Returns(0),
    Readies(0, DeskReaction::Nothing),
    LooksUp(0, 2),
    Offers(1),
    Hears(0, DeskReaction::Choice(2, 1)),
    Hears(1, DeskReaction::Accepts),
    Readies(0, DeskReaction::Ready(2, 1)),
    Sent(0, Says::Pong(1), DeskReaction::Ignores),
    Hears(1, DeskReaction::Pong(2)),
    Sent(0, Says::Failed(2), DeskReaction::Accepts),
    Sent(0, Says::Pong(2), DeskReaction::Ignores),
    Wants(0, None),
    LooksUp(0, 2),
];

#[test]
fn serves_on_where_a_takeover_ends_before_the_data(rt: HostRuntime) {
    assert!(rt; all_go_so(rt.alloc(), &LEFT_EARLY, &[]));
}

static LEFT_LATE: [Step; 25] = [
    Prepares(0),
    MOUNTS,
    LooksUp(0, 2),
    Offers(1),
    Hears(0, DeskReaction::Choice(1, 1)),
    Hears(1, DeskReaction::Accepts),
    Readies(0, DeskReaction::Ready(1, 1)),
    Hears(1, DeskReaction::Pong(1)),
    Hears(0, DeskReaction::Data(1, 1)),
    GivesUp(0, DeskReaction::Failed(1)),
    Serves(0, None),
    Lends(0, false),
    Wants(0, Some(1)),
    Claims(0, Says::Empty, Claiming::Broken),
    Claims(0, Says::Mounted(2), Claiming::Broken),
    Wants(0, Some(1)),
    Claims(0, Says::Unanswered(3), Claiming::Waits),
    Wants(0, Some(1)),
    Claims(0, Says::Claimed(2), Claiming::Serves(2)),
    Serves(0, Some(2)),
    Claims(0, Says::Claimed(3), Claiming::Broken),
    Serves(0, Some(2)),
    LooksUp(0, 2),
    GivesUp(1, DeskReaction::Nothing),
    Mounts(1, Says::Mounted(3), Mounting::Broken),
];

#[test]
fn serves_again_by_a_claim_where_a_takeover_ends_after_the_data(rt: HostRuntime) {
    assert!(rt; all_go_so(rt.alloc(), &LEFT_LATE, &[]));
}

/// Daemon 0 hands its state over to daemon 1.
static HANDED: [Step; 8] = [
    Prepares(0),
    MOUNTS,
    Offers(1),
    Hears(0, DeskReaction::Choice(1, 1)),
    Hears(1, DeskReaction::Accepts),
    Readies(0, DeskReaction::Ready(1, 1)),
    Hears(1, DeskReaction::Pong(1)),
    Hears(0, DeskReaction::Data(1, 1)),
];

static ENDED: [Step; 5] = [
    Hears(1, DeskReaction::Accepts),
    Wants(1, Some(1)),
    Claims(1, Says::Ended, Claiming::Ended),
    Wants(1, None),
    Claims(1, Says::Claimed(2), Claiming::Broken),
];

static AT_THE_LAST: [Step; 4] = [
    Hears(1, DeskReaction::Accepts),
    Claims(1, Says::LastGeneration, Claiming::LastGeneration),
    Wants(1, None),
    Serves(1, None),
];

static LATE: [Step; 4] = [
    Hears(2, DeskReaction::Ignores),
    Sent(1, Says::Failed(1), DeskReaction::Accepts),
    Hears(1, DeskReaction::Ignores),
    Wants(1, None),
];

#[test]
fn is_gone_where_no_claim_can_be_granted(rt: HostRuntime) {
    for endings in [ENDED.as_slice(), AT_THE_LAST.as_slice(), LATE.as_slice()] {
        assert!(rt; all_go_so(rt.alloc(), &HANDED, endings));
    }
}

static LENT: [Step; 10] = [
    Prepares(0),
    MOUNTS,
    Lends(0, true),
    Lends(0, false),
    Serves(0, Some(1)),
    Readies(0, DeskReaction::Nothing),
    Returns(0),
    Lends(0, true),
    Returns(1),
    Lends(1, false),
];

#[test]
fn lends_what_it_serves_once_and_takes_back_only_that(rt: HostRuntime) {
    assert!(rt; all_go_so(rt.alloc(), &LENT, &[]));
}

/// Daemon 1 is handed the first of two parts of the state of daemon 0.
static BEGUN_IN_PARTS: [Step; 13] = [
    Prepares(0),
    MOUNTS,
    LooksUpEach(0, 2),
    Offers(1),
    Hears(0, DeskReaction::Choice(1, 2)),
    Hears(1, DeskReaction::Accepts),
    Readies(0, DeskReaction::Ready(1, 1)),
    Hears(1, DeskReaction::Pong(1)),
    Hears(0, DeskReaction::Part(1, 1, 1, 2)),
    Serves(0, None),
    Hears(1, DeskReaction::Accepts),
    Hears(1, DeskReaction::Ignores),
    Wants(1, None),
];

static READ_TO_THE_END: [Step; 12] = [
    Next(DeskReaction::Part(1, 1, 2, 2)),
    Hears(1, DeskReaction::Accepts),
    Hears(1, DeskReaction::Ignores),
    Next(DeskReaction::Nothing),
    Wants(1, Some(1)),
    Claims(1, Says::Claimed(2), Claiming::Serves(2)),
    LooksUpEach(1, 2),
    LooksUp(1, 18),
    GivesUp(0, DeskReaction::Failed(1)),
    Claims(0, Says::Stale(2), Claiming::Stale),
    Serves(0, None),
    Serves(1, Some(2)),
];

static LEFT_BETWEEN_PARTS: [Step; 9] = [
    Sent(1, Says::Failed(2), DeskReaction::Ignores),
    Sent(1, Says::Failed(1), DeskReaction::Accepts),
    Next(DeskReaction::Part(1, 1, 2, 2)),
    Hears(1, DeskReaction::Ignores),
    Wants(1, None),
    GivesUp(0, DeskReaction::Failed(1)),
    Wants(0, Some(1)),
    Claims(0, Says::Claimed(2), Claiming::Serves(2)),
    LooksUpEach(0, 2),
];

static GIVEN_UP_BETWEEN_PARTS: [Step; 5] = [
    GivesUp(1, DeskReaction::Nothing),
    Next(DeskReaction::Part(1, 1, 2, 2)),
    Hears(1, DeskReaction::Ignores),
    Hears(2, DeskReaction::Ignores),
    Wants(1, None),
];

#[test]
fn hands_over_in_parts(rt: HostRuntime) {
    for endings in [
        READ_TO_THE_END.as_slice(),
        LEFT_BETWEEN_PARTS.as_slice(),
        GIVEN_UP_BETWEEN_PARTS.as_slice(),
    ] {
        assert!(rt; all_go_so_in_parts(rt.alloc(), &BEGUN_IN_PARTS, endings));
    }
}
