// The reader's step (01, Entries): one column in, the next state and perhaps an event out.
#![tactic(auto)]

mod access;
mod commands;
mod data;
mod header;
mod made;

ghost use Rattle.std.specs.Prelude.{◌≡◌, Bool, ℕ};
ghost use Rattle.protocol.specs.Rest.{power_on};
ghost use Rattle.protocol.specs.Reader.{look, begun, stepped, step};
ghost use Rattle.machine.specs.Zeros.{judged_at, ended_at};
ghost use Rattle.reader.specs.Code.{said, says_of, phase_by, phase_of, form_by, turn_of, state_of, place_of, moved, after};

use access::{ask_r, ask_w};
use commands::{acknowledge, ask_ex};
use data::{ask_p, byte_s, reads, writes};
use header::{head, locks};
use kinds::Kind;
use machine::REST;
use made::go;

// Columns: "A column pairs a CDM bit with the CDS bit that answers it". It is made where a phase looks at both: made before, each column pays.
#[derive(Clone, Copy)]
struct Column {
    cdm: bool,
    cds: bool,
}

// What the lock columns showed so far: ones alone, so many ones and then zeros, or any other pattern.
#[derive(Clone, Copy)]
pub enum Locks {
    Ones,
    Upto(u8),
    Mixed,
}

// Where in a frame the reader is.
#[derive(Clone, Copy)]
pub enum Phase {
    Deaf,
    // Up to the last lock column, and the header columns behind it.
    Locks,
    Head,
    AskR,
    AskW,
    // A byte: its S, the twelve bits of a read or a write, its P.
    ByteS,
    Reads,
    Writes,
    AskP,
    // A command's S and the answers to it; then its EX.
    Acknowledge,
    AskEX,
}

// A phase, and beside it what it remembers; what a field holds in a phase that does not use it does not matter. An enum whose phases carry
// their fields took a third longer a column, and read_all, which scans a stretch twice where the room is exact, longer than plain Rust. Small
// fields that an event shows together lie apart: beside each other they are packed into one number, and unpacked again in each column.
#[derive(Clone, Copy)]
pub struct Frame {
    pub phase: Phase,
    // The bits so far, the newest lowest, in as wide a number as checkbits collects them.
    pub word: u64,
    // The column after S, counted from 1, and behind a command's header after its S, from 0.
    pub column: u64,
    // Of a byte's bits, how many come after this one.
    pub left: u64,
    // The byte's place in an access, from 1.
    pub nth: u64,
    pub seen: Locks,
    pub lock: u8,
    // The register of an access and, between its two numbers, W.
    pub address: u8,
    pub write: bool,
    pub id: u8,
    // R and its answer: as one struct of two flags they took a third more time.
    pub r: bool,
    pub answered: bool,
    // A 1 came at the byte's S and was not confirmed.
    pub unconfirmed: bool,
    // Every bit of a written byte so far was echoed.
    pub echoed: bool,
    pub ids: u8,
    pub cmd: u8,
    // Every answer to a command so far was as it should be.
    pub fitting: bool,
}

// Out of a frame.
#[derive(Clone, Copy)]
pub enum Waiting {
    Rest,
    Power,
}

// In a frame or out of one: two cases, so that one test tells a column of a frame.
#[derive(Clone, Copy)]
pub enum Form {
    Frame,
    Outside(Waiting),
}

// Inside the form, where it would stand alone in a frame, the frame made idle rows slower than the plain program's.
#[derive(Clone, Copy)]
pub struct Reader {
    pub form: Form,
    // Where in a frame it is; out of one it does not matter.
    pub frame: Frame,
    // The zeros in a row just now; at rest they do not matter.
    pub zeros: u64,
    // The column of S in a frame; out of one it does not matter.
    pub start: usize,
}

// What a column shows.
#[derive(Clone, Copy)]
pub struct Event {
    pub kind: Kind,
    pub id: u8,
    pub address: u8,
    pub value: u8,
}

#[derive(Clone, Copy)]
pub struct Stepped {
    pub next: Reader,
    pub event: Option<Event>,
}

impl Event {
    // An event that names no ID and no address.
    fn plain(kind: Kind, value: u8) -> Event
        ensures { result ≡ said kind 0 0 value }
    {
        Event {
            kind,
            id: 0,
            address: 0,
            value,
        }
    }
}

impl Frame {
    // No lock seen, no header bit.
    const BEGUN: Frame = Frame {
        phase: Phase::Locks,
        word: 0,
        column: 1,
        left: 0,
        seen: Locks::Ones,
        lock: 0,
        id: 0,
        address: 0,
        nth: 0,
        r: false,
        answered: false,
        write: false,
        unconfirmed: false,
        echoed: false,
        ids: 0,
        cmd: 0,
        fitting: false,
    };

    // No lock seen, no header bit; what else is remembered does not matter there.
    fn begun(self) -> Frame
        ensures { phase_of result ≡ begun }
    {
        Frame {
            phase: Phase::Locks,
            word: 0,
            column: 1,
            seen: Locks::Ones,
            ..self
        }
    }

    // The same in another phase.
    fn at(self, phase: Phase) -> Frame
        ensures { phase_of result ≡ phase_by phase self }
    {
        Frame { phase, ..self }
    }

    // An event of a register access.
    fn access(self, kind: Kind, value: u8) -> Event
        ensures { result ≡ said kind self.id self.address value }
    {
        Event {
            kind,
            id: self.id,
            address: self.address,
            value,
        }
    }

    // An event of a command: "id = CMD".
    fn command(self, kind: Kind, value: u8) -> Event
        ensures { result ≡ said kind self.cmd 0 value }
    {
        Event {
            kind,
            id: self.cmd,
            address: 0,
            value,
        }
    }
}

#[tactic(auto, unfolding(crate::specs::Code::after, crate::specs::Code::moved, crate::specs::Code::state_of))]
impl Reader {
    // Rest: "At power-on nobody is at rest".
    pub fn new() -> Reader
        ensures { state_of result ≡ power_on }
    {
        Reader {
            form: Form::Outside(Waiting::Power),
            frame: Frame::BEGUN,
            zeros: 0,
            start: 0,
        }
    }

    // "The fourteenth zero is judged before any other meaning of its column".
    pub fn step(self, column: usize, m: bool, x: bool) -> Stepped
        ensures { after column result ≡ moved (step (state_of self) m x) (place_of self column) }
    {
        let counted = Reader {
            zeros: machine::counted(self.zeros, m),
            ..self
        };
        if counted.zeros < REST {
            counted.goes_on(column, m, x)
        } else {
            counted.ended()
        }
    }

    // end: "the fourteenth zero after a frame was begun".
    fn ended(self) -> Stepped
        ensures { (column : ℕ) (m x : Bool) → after column result ≡ moved (stepped (ended_at (form_by self.form self.frame)) m x) (place_of self column) }
    {
        let event = match self.form {
            Form::Frame => Some(Event::plain(Kind::End, 0)),
            _ => None,
        };
        Stepped {
            next: Reader {
                form: Form::Outside(Waiting::Rest),
                ..self
            },
            event,
        }
    }

    // A column that is no fourteenth zero. Start: "The first 1 after rest is the start bit S".
    fn goes_on(self, column: usize, m: bool, x: bool) -> Stepped
        ensures { after column result ≡ moved (stepped (judged_at begun (state_of self) m) m x) (place_of self column) }
    {
        match self.form {
            Form::Frame => {
                let turn = look(self.frame, m, x);
                let next = Reader {
                    frame: turn.next,
                    ..self
                };
                Stepped {
                    next,
                    event: turn.says,
                }
            }
            // What a frame begins with is set at rest too, where it does not matter, so that the compiler has nothing to choose.
            Form::Outside(Waiting::Rest) => {
                let next = Reader {
                    form: if m {
                        Form::Frame
                    } else {
                        Form::Outside(Waiting::Rest)
                    },
                    frame: self.frame.begun(),
                    zeros: 0,
                    start: column,
                };
                Stepped { next, event: None }
            }
            Form::Outside(Waiting::Power) => Stepped {
                next: self,
                event: None,
            },
        }
    }
}

// What a column makes of a frame: the frame behind it, and perhaps an event.
#[derive(Clone, Copy)]
struct Turn {
    next: Frame,
    says: Option<Event>,
}

// One column of a frame: both go to the function of its phase, as protocol's `look` has them.
#[tactic(auto, unfolding(protocol::specs::Reader::look))]
fn look(frame: Frame, m: bool, x: bool) -> Turn
    ensures { turn_of result ≡ look (phase_of frame) m x }
{
    match frame.phase {
        Phase::Deaf => go(frame.at(Phase::Deaf)),
        Phase::Locks => locks(frame, Column { cdm: m, cds: x }),
        Phase::Head => head(frame, m),
        Phase::AskR => ask_r(frame, Column { cdm: m, cds: x }),
        Phase::AskW => ask_w(frame, Column { cdm: m, cds: x }),
        Phase::ByteS => byte_s(frame, Column { cdm: m, cds: x }),
        Phase::Reads => reads(frame, x),
        Phase::Writes => writes(frame, Column { cdm: m, cds: x }),
        Phase::AskP => ask_p(frame, x),
        Phase::Acknowledge => acknowledge(frame, Column { cdm: m, cds: x }),
        Phase::AskEX => ask_ex(frame, m),
    }
}
