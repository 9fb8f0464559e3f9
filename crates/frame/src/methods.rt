ghost use Rattle.std.specs.Prelude.{◌≡◌};
ghost use Rattle.frame.specs.Bounds.{causal};
ghost use Rattle.frame.specs.Frames.{framed, free, reversed, ReverseTwice, ReverseAdmitted};

use crate::bound::{WindowFrameBound, WindowFrameUnits};
use crate::frame::WindowFrame;

impl WindowFrame {
    pub fn units(&self) -> WindowFrameUnits
        ensures { result ≡ (framed self.now).units }
    {
        self.units
    }

    pub fn start_bound(&self) -> WindowFrameBound
        ensures { result ≡ (framed self.now).start }
    {
        self.start_bound
    }

    pub fn end_bound(&self) -> WindowFrameBound
        ensures { result ≡ (framed self.now).end }
    {
        self.end_bound
    }

    // Whether the window's end waits for no line behind the current one.
    pub fn is_causal(&self) -> bool
        ensures { result ≡ causal (framed self.now).units (framed self.now).end }
    {
        match self.units {
            WindowFrameUnits::Rows => match self.end_bound {
                WindowFrameBound::UnboundedFollowing => false,
                WindowFrameBound::Following(n) => n == 0,
                _ => true,
            },
            WindowFrameUnits::Range | WindowFrameUnits::Groups => match self.end_bound {
                WindowFrameBound::Preceding(n) => n > 0,
                _ => false,
            },
        }
    }

    // Whether neither bound has an offset.
    pub fn is_free(&self) -> bool
        ensures { result ≡ free (framed self.now) }
    {
        let (start, end) = (self.start_bound, self.end_bound);
        start.is_free() && end.is_free()
    }

    // The frame with its bounds swapped, and PRECEDING for FOLLOWING and back.
    pub fn reverse(&self) -> WindowFrame
        ensures frame { framed result ≡ reversed (framed self.now) }
        ensures twice { ReverseTwice }
        ensures admitted { ReverseAdmitted }
    {
        WindowFrame {
            units: self.units,
            start_bound: self.end_bound.turn(),
            end_bound: self.start_bound.turn(),
        }
    }
}
