// What a sheet's fields name: kinds, actions, transitions, ends and connections. Numbers count from 0.
ghost use Rattle.std.specs.Prelude.{◌≡◌};
ghost use Rattle.std.specs.Result.{result_ok};
ghost use Rattle.sheets.specs.Fields.{kind_of};

#[derive(Clone, Copy, PartialEq, Eq, Debug)]
pub enum Kind {
    Basic,
    Service,
    Composite,
}

// The kind that a byte of a sheet stands for; a byte that stands for none comes back.
impl TryFrom<u8> for Kind {
    type Error = u8;

    ghost try_from_gives = { λ byte result. result_ok result ≡ kind_of byte };

    fn try_from(byte: u8) -> Result<Kind, u8> {
        match byte {
            1 => Ok(Kind::Basic),
            2 => Ok(Kind::Service),
            3 => Ok(Kind::Composite),
            _ => Err(byte),
        }
    }
}

// A block's kind, and how many input and output events it has.
#[derive(Clone, Copy, PartialEq, Eq, Debug)]
pub struct Interface {
    pub kind: Kind,
    pub inputs: u8,
    pub outputs: u8,
}

// What a state does on entry: runs an algorithm, sends an output, both or neither.
#[derive(Clone, Copy, PartialEq, Eq, Debug)]
pub struct Action {
    pub algorithm: Option<u8>,
    pub output: Option<u8>,
}

// From state to state, guarded by an event or event-free.
#[derive(Clone, Copy, PartialEq, Eq, Debug)]
pub struct Transition {
    pub source: u8,
    pub destination: u8,
    pub event: Option<u8>,
}

// Where a connection begins or ends: a port of the composite itself, or of one of its instances.
#[derive(Clone, Copy, PartialEq, Eq, Debug)]
pub enum End {
    Outside { port: u8 },
    Inside { instance: u8, port: u8 },
}

#[derive(Clone, Copy, PartialEq, Eq, Debug)]
pub struct Connection {
    pub source: End,
    pub target: End,
}

// What stands in a sheet any number of times, each in a field of its own.
#[derive(Clone, Copy, PartialEq, Eq, Debug)]
pub enum Item {
    State,
    Transition,
    Entry,
    Instance,
    Connection,
}
