// The numbers and refusals of document 01, as code. Their definitions stand in specs/Numbers.antt and specs/Refused.antt.

#![tactic(auto)]

ghost use Rattle.std.specs.Prelude.{◌≡◌};
ghost use Rattle.rules.specs.Refused.{number_of, code};

pub const MAX_NODES: usize = 1024;

pub const MAX_LINKS: usize = 16384;

pub const MAX_ENDS: usize = 16;

pub const MAX_WEIGHT: u64 = 1099511627776;

pub const WEIGHT_MAX: u64 = 18446744073709551615;

pub const INVALID: u32 = 4294967295;

// Why a call is refused, by the row of document 01.
#[derive(Clone, Copy, Debug, PartialEq, Eq)]
pub enum Refusal {
    Nodes = 1,
    Links = 2,
    LinkEnd = 3,
    Loop = 4,
    LinkWeight = 5,
    Unsorted = 6,
    OrderLength = 7,
    Order = 8,
    Lent = 9,
    Pool = 10,
    Entries = 11,
    Sum = 12,
    Tables = 20,
    Ends = 21,
    EndNode = 22,
    Offset = 23,
    Room = 24,
    Walk = 25,
}

impl From<Refusal> for u32 {
    ghost from_gives = { λ r n. n ≡ number_of r };

    fn from(refusal: Refusal) -> u32 {
        refusal as u32
    }
}

// The number that answers a call: 0 where it was not refused.
pub fn number(outcome: Result<(), Refusal>) -> u32
    ensures { result ≡ code outcome }
{
    match outcome {
        Ok(()) => 0,
        Err(refusal) => refusal.into(),
    }
}
