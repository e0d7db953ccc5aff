// What a record says, and its bytes: 64 bits, most significant first, of which the kind has 4, the purse 12, the amount 32, zeros 8 and the mark 8.
ghost use Rattle.std.specs.Prelude.{◌≡◌, ◌<◌};
ghost use Rattle.purse_model.specs.Journal.{purse_count};

pub const RECORD_BYTES: usize = 8;

pub const MARK: u8 = 0xA5;

// How many purses the 12 bits below the kind tell apart.
pub const PURSE_NUMBERS: u64 = 4_096;

const AMOUNTS: u64 = 4_294_967_296;

// What a record is: 1 and 2 in the journal.
#[derive(Clone, Copy, Debug, PartialEq, Eq)]
pub enum Kind {
    Credit,
    Charge,
}

// An entry that is none: of another kind, of a purse over 63, a credit past the top, or a charge beyond its purse.
#[derive(Clone, Copy, Debug, PartialEq, Eq)]
pub struct NoEntry;

impl Kind {
    ghost use Rattle.purse_model.specs.Journal.{kind_number};
    ghost use Rattle.purses.specs.Meant.{said};

    pub fn number(self) -> u64
        ensures { result ≡ kind_number (said self) }
    {
        match self {
            Kind::Credit => 1,
            Kind::Charge => 2,
        }
    }
}

impl TryFrom<u64> for Kind {
    ghost use Rattle.purses.specs.Meant.{Numbered};

    type Error = NoEntry;

    ghost try_from_gives = { Numbered };

    fn try_from(number: u64) -> Result<Kind, NoEntry> {
        match number {
            1 => Ok(Kind::Credit),
            2 => Ok(Kind::Charge),
            _ => Err(NoEntry),
        }
    }
}

// What a record says: a credit or a charge of a purse.
#[derive(Clone, Copy, Debug, PartialEq, Eq)]
pub struct Entry {
    pub kind: Kind,
    pub purse: u64,
    pub amount: u64,
    pub ghost of_purse: { purse < purse_count },
}

impl Entry {
    ghost use Rattle.purse_model.specs.Journal.{bytes_of};
    ghost use Rattle.purses.specs.Meant.{entry_said};

    pub fn bytes(self) -> [u8; RECORD_BYTES]
        ensures { result ≡ bytes_of (entry_said self) }
    {
        let head = ((self.kind.number() * PURSE_NUMBERS + self.purse) as u16).to_be_bytes();
        let amount = ((self.amount % AMOUNTS) as u32).to_be_bytes();
        [
            head[0], head[1], amount[0], amount[1], amount[2], amount[3], 0, MARK,
        ]
    }
}
