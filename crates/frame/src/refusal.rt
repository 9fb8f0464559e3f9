ghost use Rattle.std.specs.Prelude.{◌≡◌};
ghost use Rattle.frame.specs.Refusals.{number_of, layer_of};

// Where a refusal arose.
#[derive(Clone, Copy, Debug, PartialEq, Eq)]
pub enum Layer {
    Word = 1,
    Bound = 2,
    Clause = 3,
    Opening = 4,
    Transcript = 5,
    Tracker = 6,
    Roll = 7,
}

// Why something is refused. docs/RULES.md has each number's rule, place and layer.
#[derive(Clone, Copy, Debug, PartialEq, Eq)]
pub enum Reason {
    ClauseTooLong = 1,
    WrongWord = 2,
    BadNumber = 3,
    WordAfterClause = 4,
    StartUnboundedFollowing = 5,
    EndUnboundedPreceding = 6,
    RangeColumns = 7,
    GroupsColumns = 8,
    TooManyLines = 9,
    UnknownBits = 10,
    LineCutShort = 11,
    NoPlaceEntry = 12,
    WrongPlaceEntry = 13,
    LineNotShown = 14,
    OutOfOrder = 15,
    OtherFirstLine = 21,
    TotalFell = 22,
    LineBeforeLast = 23,
    TurnTableShort = 24,
    FilingAboveLimit = 25,
    FilingBelowFiled = 26,
    OtherSlip = 27,
    ArrayShort = 28,
}

// A refusal: the reason, the place that it names, and the layer where it arose.
#[derive(Clone, Copy, Debug, PartialEq, Eq)]
pub struct Refusal {
    pub reason: Reason,
    pub place: u64,
    pub layer: Layer,
}

impl Reason {
    pub fn number(self) -> u8
        ensures { result ≡ number_of self }
    {
        self as u8
    }
}

impl Layer {
    // A refusal that arises here.
    pub fn refuse(self, reason: Reason, place: u64) -> Refusal
        ensures { result ≡ record { reason = reason; place = place; layer = self } }
    {
        Refusal {
            reason,
            place,
            layer: self,
        }
    }

    pub fn number(self) -> u8
        ensures { result ≡ layer_of self }
    {
        self as u8
    }
}
