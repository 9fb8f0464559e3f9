ghost use Rattle.std.specs.Prelude.{◌<◌};
ghost use Rattle.frame.specs.Bounds.{kind};

use crate::bound::{WindowFrameBound, WindowFrameUnits};

// A frame. It never starts at UNBOUNDED FOLLOWING and never ends at UNBOUNDED PRECEDING.
// Only the clause reader and `reverse` make one.
#[derive(Clone, Copy, Debug, PartialEq, Eq)]
pub struct WindowFrame {
    pub(crate) units: WindowFrameUnits,
    pub(crate) start_bound: WindowFrameBound,
    pub(crate) end_bound: WindowFrameBound,
    ghost starts: { kind start_bound < 4 },
    ghost ends: { 0 < kind end_bound },
}
