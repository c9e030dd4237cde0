//! A script: a manifest, a line `--`, and lines that say what happens.
ghost use Rattle.std.specs.Prelude.{◌≡◌, ◌+◌, ◌≤◌, ◌<◌, ◌^◌, length, map, Some, None, IfOk, IfErr, IfSome, MatchOption, Ok};
ghost use Rattle.script_lines.specs.EventLine.{event_of};
ghost use Rattle.script_lines.specs.Lines.{lines_of};
ghost use Rattle.world_script.specs.Parts.{lines_behind, IsSplit, SaysEvents};
ghost use Rattle.world_script.specs.Refusal.{IsScriptRefusal, IsEventsRefusal};
ghost use Rattle.world_script.specs.Script.{SaysManifest};

use crate::ProgramFault;
use eden_base::NoMemory;
use manifest::Manifest;
use script_lines::{first_line, read_event};
use std::alloc::Global;
use world::Event;

/// A script: a manifest, and the events of the lines after it.
#[derive(Drop)]
pub struct Script {
    pub manifest: Manifest,
    pub events: Vec<Event>,
}

impl Script {
    /// Reads the script that `bytes` write.
    pub fn read(alloc: Global, bytes: &[u8]) -> Result<Script, ProgramFault>
        ensures manifest { IfOk result (λ script. SaysManifest bytes.now (Ok script.manifest)) }
        ensures events { IfOk result (λ script. SaysEvents bytes.now script.events.items) }
        ensures refused { IfErr result (IsScriptRefusal bytes.now) }
    {
        let Some(parts) = split(bytes) else {
            return Err(ProgramFault::NoEvents);
        };
        let manifest = Manifest::read(alloc, parts.manifest)?;
        let events = read_events(alloc, parts.events, parts.first)?;
        Ok(Script { manifest, events })
    }
}

/// A script's text, split at the line `--`.
#[derive(Drop)]
struct Parts<'a> {
    manifest: &'a [u8],
    events: &'a [u8],
    /// The number of the script's line with which `events` begins.
    first: usize,
}

/// Splits a script at its first line `--`, if it has one.
fn split(script: &[u8]) -> Option<Parts<'_>>
    ensures parts { MatchOption result (lines_behind (lines_of script.now) ≡ None)
        (λ parts. IsSplit script.now parts.manifest.now parts.events.now parts.first) }
    ensures room { IfSome result (λ parts.
        parts.first + length parts.events.now ≤ length script.now + 1) }
{
    let mut rest = script;
    let mut number = 1;
    while !rest.is_empty() {
        let (line, after) = first_line(rest);
        number += 1;
        if line == b"--".as_slice() {
            return Some(Parts {
                manifest: &script[..script.len() - rest.len()],
                events: after,
                first: number,
            });
        }
        rest = after;
    }
    None
}

/// Reads the events of all lines of `text`. Its first line is line `first` of the script.
fn read_events(alloc: Global, text: &[u8], first: usize) -> Result<Vec<Event>, ProgramFault>
    requires room { first + length text.now < 2 ^ 64 }
    ensures events { IfOk result (λ events.
        map Some events.items ≡ map event_of (lines_of text.now)) }
    ensures refused { IfErr result (IsEventsRefusal (lines_of text.now) first) }
{
    let mut events = Vec::new(alloc);
    let mut rest = text;
    while !rest.is_empty() {
        let (line, after) = first_line(rest);
        match read_event(alloc, line)? {
            Some(event) => events.push(event)?,
            None => return Err(ProgramFault::BadLine(first + events.len())),
        }
        rest = after;
    }
    Ok(events)
}
