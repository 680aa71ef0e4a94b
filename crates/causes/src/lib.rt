// Why a call is refused: the causes of document 01 and of the requests.
#![tactic(auto)]

ghost use Rattle.std.specs.Prelude.{◌≡◌};
ghost use Rattle.causes.specs.Numbers.{number_of};

// A cause, with the number that the table of causes gives it.
#[derive(Clone, Copy, PartialEq, Eq)]
pub enum Cause {
    // Load, withdraw or close when not open.
    NotOpen = 1,
    // The first row of a batch that fails, by its lowest number.
    UnknownKind = 2,
    CutShort = 3,
    HighState = 4,
    ZeroSet = 5,
    TooManyRows = 6,
    TooManySets = 7,
    AbsentRow = 8,
    // Reopen, round, print or expression when open; round when settled; print or expression when running.
    StillOpen = 9,
    AlreadySettled = 10,
    StillRunning = 11,
    ShortBuffer = 12,
    // Request C-11: a name of another form, one without a mark, and one mark too many.
    BadName = 14,
    NoMark = 15,
    TooManyMarks = 16,
    // Request C-12: the verdict is empty.
    VerdictEmpty = 17,
    // Request C-21: a line of another form, and a number that no such automaton has.
    BadLine = 20,
    BadNumber = 21,
    // Request C-24: a session record that no calls make.
    ForeignRecord = 24,
}

impl From<Cause> for u8 {
    ghost from_gives = { λ cause n. n ≡ number_of cause };

    fn from(cause: Cause) -> u8 {
        cause as u8
    }
}
