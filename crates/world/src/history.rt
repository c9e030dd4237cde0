//! A list of events from the beginning of a world.
ghost use Rattle.std.specs.Prelude.{IfOk};
ghost use Rattle.world.specs.Listings.{ListingsAreWhole};
ghost use Rattle.world.specs.Reads.{ReadsAreOfTheirFiles};
ghost use Rattle.world.specs.State.{started};
ghost use Rattle.std.specs.List.{AllByRecursion};
ghost use Rattle.world.specs.Attending.{RefusalsMayCome};
ghost use Rattle.world.specs.Step.{Steps};
ghost use Rattle.world.specs.World.{first_world};
ghost use Rattle.world.specs.Agreement.{world_after, all_moves, Matches, IsRunOfMoves, CountsAreOwed, NumbersNameTheirFirstFile, OneDaemonForEachGeneration, DataIsCurrent, IsGoodForget, RepliesAreAnswered};

use crate::event::Event;
use crate::outcome::Outcome;
use crate::world::World;
use eden_base::NoMemory;
use manifest::Manifest;
use std::alloc::Global;

/// Makes a world and lets `events` happen in it, one after another. Returns the world and the outcome of each event. It
/// fails only if the world or the list of outcomes is refused memory. Within an event, out of memory is a refusal or an
/// answer.
pub fn run(
    alloc: Global,
    manifest: &Manifest,
    limit: usize,
    events: &[Event],
) -> Result<(World, Vec<Outcome>), NoMemory>
    // Each event is made, or is refused for the first cause that holds, out of memory last.
    ensures steps { IfOk result (λ r. Steps (started manifest.now limit) events.now r.1.items r.0) }

    // What the events made is a run of moves, and the ideal world after these moves agrees with the state.
    ensures events_are_a_run_of_moves { IfOk result (λ r.
        IsRunOfMoves manifest.now events.now r.1.items r.0) }

    // The seated daemon's counts and numbers are the ideal world's. Each generation was answered by one daemon. Data of
    // the seat's generation knows what the ideal world has, and so does each daemon that may claim the seat. Each reply
    // was posted by a daemon that the ideal world saw posting.
    ensures counts_are_what_is_owed { IfOk result (λ r.
        CountsAreOwed (world_after manifest.now events.now r.1.items) r.0) }
    ensures numbers_name_their_first_file { IfOk result (λ r.
        NumbersNameTheirFirstFile (world_after manifest.now events.now r.1.items) r.0) }
    ensures one_daemon_for_each_generation { IfOk result (λ r.
        OneDaemonForEachGeneration (world_after manifest.now events.now r.1.items)) }
    ensures handed_data_is_current { IfOk result (λ r.
        DataIsCurrent (world_after manifest.now events.now r.1.items) r.0) }
    ensures replies_are_answered { IfOk result (λ r.
        RepliesAreAnswered (world_after manifest.now events.now r.1.items) (started manifest.now limit) events.now r.1.items r.0) }
    ensures no_bad_forget { IfOk result (λ r.
        AllByRecursion (AllByRecursion IsGoodForget) r.1.items) }

    // A listing of a directory, whatever happens between its READDIRs, gives each file once that stays there, and none
    // twice.
    ensures listings_are_whole { IfOk result (λ r.
        ListingsAreWhole (first_world manifest.now) (all_moves (first_world manifest.now) events.now r.1.items)) }

    // What a READ gives are bytes of the file that its number was first given out for, from its offset on, as many as were
    // asked for or as there are.
    ensures reads_are_of_their_files { IfOk result (λ r.
        ReadsAreOfTheirFiles (first_world manifest.now) (all_moves (first_world manifest.now) events.now r.1.items)) }

    // No take or post is refused as Ended, Stale or NotAsked, and no claim is refused as Unanswered.
    ensures refusals_may_come { IfOk result (λ r. RefusalsMayCome events.now r.1.items) }

    // The state matches the last ideal world. So what `World::step` says of matching worlds goes on from here.
    ensures matches { IfOk result (λ r. Matches (world_after manifest.now events.now r.1.items) r.0) }
{
    let mut world = World::new(alloc, manifest, limit)?;
    let outcomes = outcomes_of(alloc, &mut world, events)?;
    Ok((world, outcomes))
}

/// Lets each event happen in `world`, in order, and returns the outcome of each.
fn outcomes_of(alloc: Global, world: &mut World, events: &[Event]) -> Result<Vec<Outcome>, NoMemory>
    ensures steps { IfOk result (λ outcomes. Steps world.old events.now outcomes.items world.new) }
{
    let mut outcomes = Vec::with_capacity(alloc, events.len())?;
    for event in events {
        let outcome = world.step(event);
        outcomes.push_reserved(outcome);
    }
    Ok(outcomes)
}
