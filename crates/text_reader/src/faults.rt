// Why a line is refused, in the order of the refusals' numbers.
ghost use Rattle.std.specs.Prelude.{◌≡◌};
ghost use Rattle.text_reader.specs.declared.faults.Fault.TheVariants.{Illegible, RowMissing};
ghost use Rattle.text_reader.specs.Faults.{number_of, byte_of, refusal_of};

use replies::Refusal;
use text_lines::entries::NoRow;
use text_lines::lines::Illegible;

#[derive(Clone, Copy, Debug, PartialEq, Eq)]
pub(crate) enum Fault {
    Illegible { byte: u16 },
    UnlistedKind,
    WrongLength,
    LowerRank,
    NoRoom,
    RowMissing { byte: u16 },
    OtherCount,
}

impl Fault {
    pub(crate) fn number(self) -> u8
        ensures { result ≡ number_of self }
    {
        match self {
            Fault::Illegible { .. } => 1,
            Fault::UnlistedKind => 2,
            Fault::WrongLength => 3,
            Fault::LowerRank => 4,
            Fault::NoRoom => 5,
            Fault::RowMissing { .. } => 6,
            Fault::OtherCount => 7,
        }
    }

    // The byte of the line that the refusal names.
    pub(crate) fn byte(self) -> u16
        ensures { result ≡ byte_of self }
    {
        match self {
            Fault::Illegible { byte } | Fault::RowMissing { byte } => byte,
            _ => 0,
        }
    }

    pub(crate) fn refusal(self, line: u16) -> Refusal
        ensures { result ≡ refusal_of line self }
    {
        Refusal {
            number: self.number(),
            line,
            offset: self.byte(),
        }
    }
}

impl From<Illegible> for Fault {
    ghost from_gives = { λ e f. f ≡ Illegible e.byte };

    fn from(e: Illegible) -> Fault {
        Fault::Illegible { byte: e.byte }
    }
}

impl From<NoRow> for Fault {
    ghost from_gives = { λ e f. f ≡ RowMissing e.byte };

    fn from(e: NoRow) -> Fault {
        Fault::RowMissing { byte: e.byte }
    }
}
