ghost use Rattle.std.specs.Prelude.{◌≡◌};
ghost use Rattle.sitting.specs.State.{limit};
ghost use Rattle.tracker.specs.States.{grant_of};

use frame::frame::WindowFrame;
use meaning::options::SortOptions;

// A granted question: the line, its window, and the total of the view that it was asked on.
#[derive(Clone, Copy)]
pub(crate) struct Grant {
    pub(crate) line: u32,
    pub(crate) start: u32,
    pub(crate) end: u32,
    pub(crate) total: u32,
}

// The numbers of a tracker: the last granted question (all 0 before any), the filed count, how many
// entries of the turn table are in use, and the entry of the last line's turn.
#[derive(Clone, Copy)]
pub(crate) struct Standing {
    pub(crate) frame: WindowFrame,
    pub(crate) options: SortOptions,
    pub(crate) last: Grant,
    pub(crate) filed: u32,
    pub(crate) live: usize,
    pub(crate) at: usize,
}

impl Grant {
    // The furthest line that may be filed.
    pub(crate) fn limit(self) -> u32
        ensures { result ≡ limit (grant_of self) }
    {
        self.line.min(self.start.min(self.end))
    }
}
