// Where a slave's process data stands. A slave's ID counts from the far end of the chain, its channel place from the master's: the
// two are types of their own, and channel_of alone leads from one to the other.
#![tactic(auto)]

ghost use Rattle.std.specs.Prelude.{◌≡◌};
ghost use Rattle.channels.specs.Channel.{channel_of};

use job::Reason;

// The most slaves that a chain has (01, refusal 1), and the highest ID (01, refusal 10).
const SLAVES: usize = 16;

const LAST_ID: usize = 7;

// From 0, the far slave.
#[derive(Clone, Copy, PartialEq, Eq)]
pub struct SlaveId(pub u8);

// From 1, the slave next to the master.
#[derive(Clone, Copy, PartialEq, Eq)]
pub struct ChannelPlace(pub u8);

// The channel place of a slave in a chain of so many slaves, or None where the chain has no slave of that ID.
pub fn channel_of(id: SlaveId, slaves: usize) -> Result<Option<ChannelPlace>, Reason>
    ensures { result ≡ channel_of id slaves }
{
    let i = id.0 as usize;
    if SLAVES < slaves {
        return Err(Reason::TooManySlaves);
    }
    if LAST_ID < i {
        return Err(Reason::OutOfRange);
    }
    if i < slaves {
        Ok(Some(ChannelPlace((slaves - i) as u8)))
    } else {
        Ok(None)
    }
}
