//! A broker's script.
ghost use Rattle.std.specs.Prelude.{All, IfErr, IfOk};
ghost use Rattle.script_lines.specs.BrokerLine.{IsSendableLine};
ghost use Rattle.broker_script.specs.Reading.{IsRefusal, Says};

use crate::fault::BrokerScriptFault;
use script_lines::{BrokerLine, first_line, read_broker_line};
use std::alloc::Global;

/// Reads each line of `text`, or returns the number of the first bad one. The last line may lack its LF. An empty text
/// has no line. Each ask that is read can be sent, as `begin` requires.
pub fn read_broker_script(alloc: Global, text: &[u8]) -> Result<Vec<BrokerLine>, BrokerScriptFault>
    ensures says { IfOk result (λ lines. Says text.now lines.items) }
    ensures sendable { IfOk result (λ lines. All IsSendableLine lines.items) }
    ensures refused { IfErr result (IsRefusal text.now) }
{
    let mut lines = Vec::new(alloc);
    let mut rest = text;
    while !rest.is_empty() {
        let (line, after) = first_line(rest);
        match read_broker_line(alloc, line)? {
            Some(said) => lines.push(said)?,
            None => return Err(BrokerScriptFault::BadLine(lines.len() + 1)),
        }
        rest = after;
    }
    Ok(lines)
}
