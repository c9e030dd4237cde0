//! How a daemon hears each message of another daemon.
ghost use Rattle.std.specs.Prelude.{◌≡◌, ℕ, List};
ghost use Rattle.takeover_core.specs.Phases.{after, heard, goes_whole, goes_in_parts, is_part_count, Hear};

use super::Node;
use crate::{Heard, Message, Phase, Versions};
use eden_base::{LAST_GENERATION, LAST_SESSION};

/// The greatest count of the parts of a text.
const MOST_PARTS: u32 = 65_536;

/// Returns whether the data of this version goes in one message.
fn goes_whole(version: u16) -> bool
    ensures whole { result ≡ goes_whole version }
{
    version == 1
}

/// Returns whether the data of this version goes in numbered parts.
fn goes_in_parts(version: u16) -> bool
    ensures parts { result ≡ goes_in_parts version }
{
    version >= 2
}

/// Returns whether a text may have this count of parts.
fn is_part_count(count: u32) -> bool
    ensures count { result ≡ is_part_count count }
{
    count >= 1 && count <= MOST_PARTS
}

impl Node {
    /// Hears an offer: a daemon that serves answers it by `take_offer`, and one with a takeover under way is busy.
    pub(super) fn hear_offer(&mut self, offered: &Versions) -> Heard
        ensures heard { result ≡ heard self.old (Hear (Message.Offer offered.now)) }
        ensures after { self.new ≡ after self.old (Hear (Message.Offer offered.now)) }
    {
        match self.phase {
            Phase::Serving { generation } => Heard::Say(self.take_offer(generation, offered)),
            Phase::Draining { .. }
            | Phase::Pinged { .. }
            | Phase::Making { .. }
            | Phase::Handed { .. } => { Heard::Say(Message::Busy) }
            _ => Heard::Ignored,
        }
    }

    /// Answers an offer. Begins the next session, unless no version is common, or sessions or generations are used up.
    pub(super) fn take_offer(&mut self, generation: u64, offered: &Versions) -> Message
        requires serving { self.old.phase ≡ Phase.Serving generation }
        ensures heard { heard self.old (Hear (Message.Offer offered.now)) ≡ Heard.Say result }
        ensures after { self.new ≡ after self.old (Hear (Message.Offer offered.now)) }
    {
        let Some(version) = self.versions.greatest_common(offered) else {
            return Message::NoCommon;
        };
        if self.sessions == LAST_SESSION || generation == LAST_GENERATION {
            return Message::Busy;
        }
        self.sessions += 1;
        let session = self.sessions;
        self.phase = Phase::Draining {
            generation,
            session,
            version,
        };
        Message::Choice { session, version }
    }

    /// Hears which session and version were chosen for its offer. A version that the daemon lacks is ignored.
    pub(super) fn hear_choice(&mut self, session: u32, version: u16) -> Heard
        ensures heard { result ≡ heard self.old (Hear (Message.Choice session version)) }
        ensures after { self.new ≡ after self.old (Hear (Message.Choice session version)) }
    {
        match self.phase {
            Phase::Waiting if self.versions.contains(version) => {
                self.phase = Phase::Chosen { session, version };
                Heard::Heard
            }
            _ => Heard::Ignored,
        }
    }

    /// Hears that the offer was refused.
    pub(super) fn hear_refusal(&mut self) -> Heard
        ensures heard_no_common { result ≡ heard self.old (Hear Message.NoCommon) }
        ensures heard_busy { result ≡ heard self.old (Hear Message.Busy) }
        ensures after_no_common { self.new ≡ after self.old (Hear Message.NoCommon) }
        ensures after_busy { self.new ≡ after self.old (Hear Message.Busy) }
    {
        match self.phase {
            Phase::Waiting => {
                self.phase = Phase::Gone;
                Heard::Heard
            }
            _ => Heard::Ignored,
        }
    }

    /// Hears that the serving daemon has drained, and answers that this one is still there.
    pub(super) fn hear_ready(&mut self, ready: u32, generation: u64) -> Heard
        ensures heard { result ≡ heard self.old (Hear (Message.Ready ready generation)) }
        ensures after { self.new ≡ after self.old (Hear (Message.Ready ready generation)) }
    {
        match self.phase {
            Phase::Chosen { session, .. } if session == ready => Heard::Say(Message::Pong {
                session,
            }),
            _ => Heard::Ignored,
        }
    }

    /// Hears that the new daemon is still there, so that the data is made now.
    pub(super) fn hear_pong(&mut self, ponged: u32) -> Heard
        ensures heard { result ≡ heard self.old (Hear (Message.Pong ponged)) }
        ensures after { self.new ≡ after self.old (Hear (Message.Pong ponged)) }
    {
        match self.phase {
            Phase::Pinged {
                generation,
                session,
                version,
            } if session == ponged => {
                self.phase = Phase::Making {
                    generation,
                    session,
                    version,
                };
                Heard::MakeData {
                    session,
                    generation,
                    version,
                }
            }
            _ => Heard::Ignored,
        }
    }

    /// Hears a `Data` message. Its bytes play no part here: the caller reads them.
    pub(super) fn hear_data(&mut self, handed: u32, generation: u64) -> Heard
        ensures heard { (bytes : List ℕ) →
            result ≡ heard self.old (Hear (Message.Data handed generation bytes)) }
        ensures after { (bytes : List ℕ) →
            self.new ≡ after self.old (Hear (Message.Data handed generation bytes)) }
    {
        match self.phase {
            Phase::Chosen { session, version } if session == handed && goes_whole(version) => {
                self.phase = Phase::Raising {
                    session,
                    generation,
                };
                Heard::GotData {
                    session,
                    generation,
                    version,
                }
            }
            _ => Heard::Ignored,
        }
    }

    /// Hears a `Part` message. Its bytes play no part here: the caller reads them.
    pub(super) fn hear_part(
        &mut self,
        handed: u32,
        generation: u64,
        position: u32,
        count: u32,
    ) -> Heard
        ensures heard { (bytes : List ℕ) →
            result ≡ heard self.old (Hear (Message.Part handed generation position count bytes)) }
        ensures after { (bytes : List ℕ) →
            self.new ≡ after self.old (Hear (Message.Part handed generation position count bytes)) }
    {
        let version = match self.phase {
            Phase::Chosen { session, version } => {
                if session != handed
                    || !goes_in_parts(version)
                    || position != 1
                    || !is_part_count(count)
                {
                    return Heard::Ignored;
                }
                version
            }
            Phase::Reading {
                session,
                generation: begun,
                version,
                position: next,
                count: all,
            } => {
                if session != handed || begun != generation || next != position || all != count {
                    return Heard::Ignored;
                }
                version
            }
            _ => return Heard::Ignored,
        };
        self.phase = Phase::Taking {
            session: handed,
            generation,
            version,
            position,
            count,
        };
        Heard::GotPart {
            session: handed,
            generation,
            version,
            position,
            count,
        }
    }

    /// Hears that the other daemon gave this session up. A new daemon has no part in takeovers from then on, a
    /// serving one serves on, and one that has handed the data over claims the seat again.
    pub(super) fn hear_failed(&mut self, failed: u32) -> Heard
        ensures heard { result ≡ heard self.old (Hear (Message.Failed failed)) }
        ensures after { self.new ≡ after self.old (Hear (Message.Failed failed)) }
    {
        match self.phase {
            Phase::Chosen { session, .. } | Phase::Reading { session, .. } if session == failed => {
                self.phase = Phase::Gone
            }
            Phase::Draining {
                generation,
                session,
                ..
            }
            | Phase::Pinged {
                generation,
                session,
                ..
            }
            | Phase::Making {
                generation,
                session,
                ..
            } if session == failed => { self.phase = Phase::Serving { generation } }
            Phase::Handed {
                generation,
                session,
            } if session == failed => { self.phase = Phase::Holding { generation } }
            _ => return Heard::Ignored,
        }
        Heard::Heard
    }
}
