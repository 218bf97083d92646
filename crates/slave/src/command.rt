// A command behind its header: its S, the acknowledgement that begins in S's column, and EX (000, BiSS Commands).
ghost use Rattle.std.specs.Prelude.{◌≡◌, ◌&&◌};
ghost use Rattle.std.specs.Bool.{then_some};
ghost use Rattle.protocol.specs.Commands.{concerns};
ghost use Rattle.protocol.specs.Slave.{acknowledged};
ghost use Rattle.slave.specs.Code.{number_of, Meets};

use crate::number::Number;
use crate::phase::{Command, Phase, said};
use crate::{Reply, Seen};
use machine::{ACKNOWLEDGE_FIRST, BROADCAST, execute_column, selected, stops};

// S, and after it the columns up to EX, whose bits of the master are not judged.
pub fn acknowledge(command: Command, seen: Seen) -> (Phase, Reply)
    ensures { Meets (Phase.Acknowledge command) seen result }
{
    if stops(command.column, seen.master) {
        return said(Phase::Deaf, seen.far);
    }
    let sent = acknowledged(command.column, command.ids, command.number, seen.far);
    if command.column < execute_column(command.ids) - 1 {
        let next = Command {
            column: command.column + 1,
            ..command
        };
        said(Phase::Acknowledge(next), sent)
    } else {
        let concerned = concerned(command.ids, command.number);
        said(Phase::AskEX(concerned, command.cmd), sent)
    }
}

// EX = 1 executes the command for every slave that it concerns; then all of them are deaf.
pub fn ask_ex(concerned: bool, cmd: u64, seen: Seen) -> (Phase, Reply)
    ensures { Meets (Phase.AskEX concerned cmd) seen result }
{
    let reply = Reply {
        sent: seen.far,
        stored: None,
        ran: executed(seen.master, concerned, cmd),
    };
    (Phase::Deaf, reply)
}

// The code that is executed, if EX sends the execution and the command concerns the slave.
fn executed(execute: bool, concerned: bool, cmd: u64) -> Option<usize>
    ensures { result ≡ then_some (execute && concerned) cmd }
{
    (execute && concerned).then_some(cmd as usize)
}

// A broadcast goes to all slaves, "even those without a valid BiSS Slave ID".
fn concerned(ids: u64, number: Option<Number>) -> bool
    ensures { result ≡ concerns ids (number_of number) }
{
    ids == BROADCAST || number.is_some_and(|own| selected(ids, own.value))
}

// "all BiSS Slaves addressed by IDS acknowledge": in its own column a slave sends 1; all else passes on.
fn acknowledged(column: u64, ids: u64, number: Option<Number>, far: bool) -> bool
    ensures { result ≡ acknowledged column ids (number_of number) far }
{
    match number {
        Some(own) if column == ACKNOWLEDGE_FIRST + own.value && selected(ids, own.value) => true,
        _ => far,
    }
}
