//! What a line of a broker's script does at once.
ghost use Rattle.fuse_wire.specs.Request.{IsSendable};
ghost use Rattle.script_lines.specs.BrokerLine.{IsSendableLine};
ghost use Rattle.broker_script.specs.Beginning.{Begins, Issues};

use crate::awaited::Awaited;
use broker_core::IssueFault;
use broker_desk::Desk;
use fuse_wire::Request;
use script_lines::BrokerLine;

/// The immediate result of a line.
#[derive(Clone, Copy, PartialEq, Eq)]
pub enum BegunLine {
    /// The line ends when this comes.
    Waits(Awaited),
    /// The forget waits for a daemon.
    Forgot,
    /// The request was not taken.
    Refused(IssueFault),
    /// The line prints which numbers the kernel holds, and how often.
    Tells,
}

/// Begins what `line` says. Only an ask or a forget that is taken changes the desk.
pub fn begin(desk: &mut Desk, line: &BrokerLine) -> BegunLine
    requires sendable { IsSendableLine line.now }
    ensures begins { Begins desk.old line.now result desk.new }
{
    match line {
        BrokerLine::Ask(request) => issue(desk, request),
        BrokerLine::Forget(item) => issue(desk, &Request::Forget(*item)),
        BrokerLine::Seat(generation) => BegunLine::Waits(Awaited::Seat(*generation)),
        BrokerLine::Idle => BegunLine::Waits(Awaited::Idle),
        BrokerLine::Held => BegunLine::Tells,
    }
}

/// Issues the kernel's ask or forget.
fn issue(desk: &mut Desk, request: &Request) -> BegunLine
    requires { IsSendable request.now }
    ensures { Issues desk.old request.now result desk.new }
{
    match desk.issue(request) {
        Ok(Some(unique)) => BegunLine::Waits(Awaited::Reply(unique)),
        Ok(None) => BegunLine::Forgot,
        Err(fault) => BegunLine::Refused(fault),
    }
}
