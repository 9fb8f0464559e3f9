ghost use Rattle.meaning.specs.Lines.{Line};
ghost use Rattle.tracker.specs.Ends.{ReadOff, Enough};
ghost use Rattle.tracker.specs.Walks.{EndsRise, WalkedCounts};

// GROUPS windows, read off the ends of turns.
pub(crate) fn windows_by_ends() -> u8
    ensures read { ReadOff Line }
    ensures enough { Enough }
{
    0
}

// Ends of turns, and walks over them.
pub(crate) fn walks() -> u8
    ensures rise { EndsRise Line }
    ensures counts { WalkedCounts }
{
    0
}
