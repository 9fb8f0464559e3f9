ghost use Rattle.std.specs.Prelude.{Some};
ghost use Rattle.frame.specs.Shown.{unit_text, bound_text, frame_text, refusal_text};
ghost use Rattle.frame.specs.Frames.{framed};

use crate::bound::{WindowFrameBound, WindowFrameUnits};
use crate::frame::WindowFrame;
use crate::refusal::Refusal;
use std::error::Error;
use std::fmt;

impl fmt::Display for WindowFrameUnits {
    ghost output = { λ u. Some (unit_text u) };

    fn fmt<W: fmt::Write>(&self, f: &mut fmt::Formatter<W>) -> fmt::Result {
        f.write_str(match self {
            WindowFrameUnits::Rows => "ROWS",
            WindowFrameUnits::Range => "RANGE",
            WindowFrameUnits::Groups => "GROUPS",
        })
    }
}

impl fmt::Display for WindowFrameBound {
    ghost output = { λ b. Some (bound_text b) };

    fn fmt<W: fmt::Write>(&self, f: &mut fmt::Formatter<W>) -> fmt::Result {
        match self {
            WindowFrameBound::UnboundedPreceding => f.write_str("UNBOUNDED PRECEDING"),
            WindowFrameBound::Preceding(n) => write!(f, "{n} PRECEDING"),
            WindowFrameBound::CurrentRow => f.write_str("CURRENT ROW"),
            WindowFrameBound::Following(n) => write!(f, "{n} FOLLOWING"),
            WindowFrameBound::UnboundedFollowing => f.write_str("UNBOUNDED FOLLOWING"),
        }
    }
}

impl fmt::Display for WindowFrame {
    ghost output = { λ f. Some (frame_text (framed f)) };

    fn fmt<W: fmt::Write>(&self, f: &mut fmt::Formatter<W>) -> fmt::Result {
        let units = self.units;
        let start = self.start_bound;
        let end = self.end_bound;
        write!(f, "{units} BETWEEN {start} AND {end}")
    }
}

impl fmt::Display for Refusal {
    ghost output = { λ r. Some (refusal_text r) };

    fn fmt<W: fmt::Write>(&self, f: &mut fmt::Formatter<W>) -> fmt::Result {
        let number = self.reason.number();
        let place = self.place;
        let layer = self.layer.number();
        write!(f, "refused {number} place {place} layer {layer}")
    }
}

impl Error for Refusal {}
