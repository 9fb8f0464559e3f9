ghost use Rattle.std.specs.Prelude.{◌≡◌};
ghost use Rattle.frame.specs.Frames.{framed};
ghost use Rattle.search.specs.Opening.{opened};

use frame::bound::WindowFrameUnits;
use frame::frame::WindowFrame;
use frame::refusal::{Layer, Reason, Refusal};

// Whether a frame can be opened on keys that order by so many columns.
pub fn check_opening(frame: &WindowFrame, columns: u32) -> Result<(), Refusal>
    ensures { result ≡ opened (framed frame.now) columns }
{
    match frame.units() {
        WindowFrameUnits::Range if !frame.is_free() && columns != 1 => {
            Err(Layer::Opening.refuse(Reason::RangeColumns, 0))
        }
        WindowFrameUnits::Groups if columns == 0 => Err(Layer::Opening.refuse(
            Reason::GroupsColumns,
            0,
        )),
        _ => Ok(()),
    }
}
