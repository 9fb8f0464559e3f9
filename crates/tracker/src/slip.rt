ghost use Rattle.std.specs.Prelude.{◌≡◌};

// The two line numbers of a filing. It is not `Drop`: whoever holds one has it met, by a roll or a packed
// transcript, or hands it on.
pub struct Slip {
    from: u32,
    to: u32,
}

impl Slip {
    // Only a filing makes one.
    pub(crate) fn new(from: u32, to: u32) -> Slip
        ensures { result ≡ record { from = from; to = to } }
    {
        Slip { from, to }
    }

    // The filed count before.
    pub fn from(&self) -> u32
        ensures { result ≡ self.now.from }
    {
        self.from
    }

    // The filed count since.
    pub fn to(&self) -> u32
        ensures { result ≡ self.now.to }
    {
        self.to
    }

    // Only a meeting spends one.
    pub(crate) fn spend(self) {
        let Slip { from: _, to: _ } = self;
    }
}
