// The kinds of entries (01, Entries; Request 07), each by its number in the table. The numbers stand here and nowhere else in the code.
#![tactic(auto)]

ghost use Rattle.std.specs.Prelude.{◌≡◌};
ghost use Rattle.protocol.specs.Entries.{number};
ghost use Rattle.kinds.specs.Kinds.{is_kind, kind_by, Numbers};

#[derive(Clone, Copy, PartialEq, Eq)]
pub enum Kind {
    Lock = 1,
    Lockodd = 2,
    Badhead = 3,
    Command = 4,
    Pair = 5,
    Absent = 6,
    Refused = 7,
    Odd = 8,
    Mute = 9,
    Read = 10,
    Written = 11,
    Readbad = 12,
    Writebad = 13,
    Echo = 14,
    End = 15,
    Closed = 16,
    Executed = 17,
    Withheld = 18,
    Ackodd = 19,
    Forced = 20,
}

// A number that is no kind's.
#[derive(Clone, Copy, PartialEq, Eq)]
pub struct NotAKind;

impl Kind {
    pub fn number(self) -> u8
        ensures { result ≡ number (kind_by self) }
    {
        self as u8
    }
}

impl TryFrom<u8> for Kind {
    type Error = NotAKind;

    ghost try_from_gives = { Numbers };

    fn try_from(number: u8) -> Result<Kind, NotAKind> {
        match number {
            1 => Ok(Kind::Lock),
            2 => Ok(Kind::Lockodd),
            3 => Ok(Kind::Badhead),
            4 => Ok(Kind::Command),
            5 => Ok(Kind::Pair),
            6 => Ok(Kind::Absent),
            7 => Ok(Kind::Refused),
            8 => Ok(Kind::Odd),
            9 => Ok(Kind::Mute),
            10 => Ok(Kind::Read),
            11 => Ok(Kind::Written),
            12 => Ok(Kind::Readbad),
            13 => Ok(Kind::Writebad),
            14 => Ok(Kind::Echo),
            15 => Ok(Kind::End),
            16 => Ok(Kind::Closed),
            17 => Ok(Kind::Executed),
            18 => Ok(Kind::Withheld),
            19 => Ok(Kind::Ackodd),
            20 => Ok(Kind::Forced),
            _ => Err(NotAKind),
        }
    }
}

// Whether a number is a kind's. The second lemma is for a body that looks at 0 first.
#[tactic(auto, using(crate::proofs::Numbers::decided, crate::proofs::Numbers::no_kind))]
pub fn is_kind(number: u8) -> bool
    ensures { result ≡ is_kind number }
{
    Kind::try_from(number).is_ok()
}
