// The kinds of records, by their bytes.
ghost use Rattle.std.specs.Prelude.{◌≡◌};
ghost use Rattle.taskfile.specs.Records.{kind_of};

use crate::format::Part;

/// What the first byte of a record says that it is.
#[derive(Clone, Copy, Debug, PartialEq, Eq)]
pub(crate) enum Kind {
    End,
    Head,
    Step,
    Names(Part),
}

/// A byte that no kind has.
#[derive(Clone, Copy, Debug, PartialEq, Eq)]
pub(crate) struct UnknownKind(pub u8);

impl TryFrom<u8> for Kind {
    type Error = UnknownKind;

    ghost try_from_gives = { λ byte r. r ≡ kind_of byte };

    fn try_from(byte: u8) -> Result<Self, UnknownKind> {
        match byte {
            0 => Ok(Kind::End),
            1 => Ok(Kind::Head),
            2 => Ok(Kind::Names(Part::Start)),
            3 => Ok(Kind::Names(Part::Goal)),
            4 => Ok(Kind::Step),
            5 => Ok(Kind::Names(Part::Needs)),
            6 => Ok(Kind::Names(Part::Sets)),
            7 => Ok(Kind::Names(Part::Clears)),
            _ => Err(UnknownKind(byte)),
        }
    }
}
