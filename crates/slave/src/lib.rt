// One slave of the chain: a column in; its next state, the bit that it sends, the byte that it stores and the code that it executes out.
#![tactic(auto)]

mod access;
mod command;
mod data;
mod header;
mod number;
mod phase;

ghost use Rattle.std.specs.Prelude.{◌≡◌, ◌<◌, IfSome};
ghost use Rattle.protocol.specs.Limits.{address_count};
ghost use Rattle.protocol.specs.Rest.{power_on, timer};
ghost use Rattle.protocol.specs.Slave.{begun};
ghost use Rattle.slave.specs.Code.{option_of, phase_of, passed_on, state_of, address_of, says_nothing, heard_by, Steps};

use machine::REST;
pub use number::Number;
pub use phase::{Asked, Byte, Command, Header, Passed, Phase};

// In a frame, at rest, or at power-on: the first case is asked first.
#[derive(Clone, Copy)]
pub enum Form {
    Frame,
    Rest,
    Power,
}

// The phase stands beside the form, and not in it, so that a slave stays in the processor's registers: idle rows then take a third less.
#[derive(Clone, Copy)]
pub struct Slave {
    pub form: Form,
    // The zeros in a row just now; at rest they do not matter.
    pub zeros: u64,
    // Where in a frame it is; out of one it does not matter.
    pub phase: Phase,
}

// What a slave sees in a column: the master's bit, its far neighbour's bit, the right and the byte at its address, and its waiting number.
#[derive(Clone, Copy)]
pub struct Seen {
    pub master: bool,
    pub far: bool,
    pub right: u8,
    pub byte: u8,
    pub wait: u8,
}

// What a slave says in a column: the bit that it sends, the byte that is stored at its address, and the code of the command that it
// executes.
#[derive(Clone, Copy)]
pub struct Reply {
    pub sent: bool,
    pub stored: Option<u8>,
    pub ran: Option<usize>,
}

impl Slave {
    // At power-on.
    pub fn new() -> Slave
        ensures { state_of result ≡ power_on }
    {
        Slave {
            form: Form::Power,
            zeros: 0,
            phase: Phase::Deaf,
        }
    }

    // The address of the register that it looks at in this column, if it looks at one.
    pub fn address(self) -> Option<usize>
        ensures { (result ≡ address_of self) × IfSome result (λ address. address < address_count) }
    {
        match self.form {
            Form::Frame => self.phase.address(),
            _ => None,
        }
    }

    // Whether it has nothing to say, whatever it sees: it passes on its far neighbour's bit and looks at no register.
    pub fn silent(self) -> bool
        ensures { result ≡ says_nothing (state_of self) }
    {
        match self.form {
            Form::Frame => matches!(self.phase, Phase::Deaf),
            _ => true,
        }
    }

    // One column of a slave with nothing to say. Rest: "they stay there while zeros last", so that no zero is counted. Start: "The first 1
    // after rest is the start bit S (answer 0). All numbers are dropped there".
    pub fn heard(mut self, master: bool) -> Slave
        ensures { state_of result ≡ heard_by (state_of self) master }
    {
        match self.form {
            Form::Rest => {
                if master {
                    self.form = Form::Frame;
                    self.zeros = 0;
                    self.phase = begun();
                }
            }
            _ => match counted(self.zeros, master) {
                Some(zeros) => self.zeros = zeros,
                None => self.form = Form::Rest,
            },
        }
        self
    }

    // One column, with what stands at its address: the state after it, and what the slave says.
    pub fn step(mut self, seen: Seen) -> (Slave, Reply)
        ensures { Steps self seen result }
    {
        match self.form {
            Form::Frame => match counted(self.zeros, seen.master) {
                Some(zeros) => {
                    let (next, reply) = self.phase.speak(seen);
                    self.zeros = zeros;
                    self.phase = next;
                    (self, reply)
                }
                None => {
                    self.form = Form::Rest;
                    (self, passed_on(seen.far))
                }
            },
            _ => (self.heard(seen.master), passed_on(seen.far)),
        }
    }
}

// The zeros in a row after one column more, none at the fourteenth. Rest: "Fourteen CDM zeros in a row end anything, at any place."
fn counted(zeros: u64, master: bool) -> Option<u64>
    ensures { option_of result ≡ timer zeros master }
{
    let zeros = machine::counted(zeros, master);
    (zeros < REST).then_some(zeros)
}

// The first phase of a frame, behind S.
fn begun() -> Phase
    ensures { phase_of result ≡ begun }
{
    Phase::Locks(Header {
        column: 1,
        word: 0,
        number: None,
    })
}

// The bit alone: no byte is stored, and no command is executed.
fn passed_on(sent: bool) -> Reply
    ensures { result ≡ passed_on sent }
{
    Reply {
        sent,
        stored: None,
        ran: None,
    }
}
