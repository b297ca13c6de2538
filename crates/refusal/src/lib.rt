// The refusals and their numbers.
#![tactic(auto)]

ghost use Rattle.std.specs.Prelude.{◌≡◌};
ghost use Rattle.refusal.specs.Table.{code_of};

// Why a call is turned away, by its number in the specification's table.
#[derive(Clone, Copy, Debug, PartialEq, Eq)]
pub enum Refusal {
    ShortFrame = 1,
    BadSample = 2,
    BadSetting = 3,
    Runaway = 4,
    CounterFull = 5,
    WrongLength = 6,
    BadCheck = 7,
    ForeignImage = 8,
    NoStrand = 9,
    BadLayout = 10,
}

// The number of a refusal, 1 to 10.
impl From<Refusal> for u64 {
    ghost use Rattle.std.specs.Prelude.{◌≡◌};
    ghost use Rattle.refusal.specs.Table.{number_of};

    ghost from_gives = { λ refusal number. number ≡ number_of refusal };

    fn from(refusal: Refusal) -> u64 {
        refusal as u64
    }
}

// What a call answers by its outcome: 0 where it passed, else the refusal's number.
pub fn code<T: Copy>(outcome: Result<T, Refusal>) -> u64
    ensures { result ≡ code_of outcome }
{
    outcome.err().map_or(0, u64::from)
}
