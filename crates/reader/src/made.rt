// What every column's function is made of: the next frame, with an event or none.
ghost use Rattle.std.specs.Prelude.{◌≡◌};
ghost use Rattle.protocol.specs.Machine.{go, gives};
ghost use Rattle.reader.specs.Code.{event_of, phase_of, turn_of};

use crate::{Event, Frame, Turn};

// On, and nothing to list ..
pub fn go(next: Frame) -> Turn
    ensures { turn_of result ≡ go (phase_of next) }
{
    Turn { next, says: None }
}

// .. or an event.
pub fn gives(event: Event, next: Frame) -> Turn
    ensures { turn_of result ≡ gives (event_of event) (phase_of next) }
{
    Turn {
        next,
        says: Some(event),
    }
}
