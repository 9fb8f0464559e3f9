ghost use Rattle.std.specs.Prelude.{◌≡◌};
ghost use Rattle.frame.specs.Frames.{framed};
ghost use Rattle.meaning.specs.Lines.{ranked};
ghost use Rattle.sitting.specs.Rules.{order_fault, fault, file_fault};
ghost use Rattle.tracker.specs.Checks.{allowed};
ghost use Rattle.tracker.specs.States.{grant_of};

use crate::standing::Standing;
use frame::bound::WindowFrameUnits;
use frame::refusal::{Layer, Reason, Refusal};
use search::sorted::first_disorder;
use transcript::keys::KeyKind;
use transcript::view::Transcript;

// Whether the lines that are new to the tracker are in order, where the frame asks for that.
fn check_order<K: KeyKind, V: Transcript<Key = K>>(
    standing: &Standing,
    view: &V,
) -> Result<(), Refusal>
    ensures { result ≡ allowed (order_fault (framed standing.now.frame).units standing.now.options (V.Transcript.starts view.now) (ranked K.KeyKind.rank (V.Transcript.lines view.now)) standing.now.last.total) }
{
    let WindowFrameUnits::Range = standing.frame.units() else {
        return Ok(());
    };
    match first_disorder(view, standing.options, standing.last.total.max(1)) {
        Some(line) => Err(Layer::Tracker.refuse(Reason::OutOfOrder, u64::from(line))),
        None => Ok(()),
    }
}

// The checks of a question, in their order.
pub(crate) fn check<K: KeyKind, V: Transcript<Key = K>>(
    standing: &Standing,
    view: &V,
    line: u32,
) -> Result<(), Refusal>
    ensures { result ≡ allowed (fault standing.now.options (framed standing.now.frame) (grant_of standing.now.last) standing.now.filed (V.Transcript.starts view.now) (ranked K.KeyKind.rank (V.Transcript.lines view.now)) line) }
{
    let total = view.total();
    if view.first() != standing.filed {
        return Err(Layer::Tracker.refuse(Reason::OtherFirstLine, u64::from(standing.filed)));
    }
    if total < standing.last.total {
        return Err(Layer::Tracker.refuse(Reason::TotalFell, u64::from(standing.last.total)));
    }
    if line >= total {
        return Err(Layer::Tracker.refuse(Reason::LineNotShown, u64::from(line)));
    }
    if line < standing.last.line {
        return Err(Layer::Tracker.refuse(Reason::LineBeforeLast, u64::from(standing.last.line)));
    }
    check_order(standing, view)
}

// The checks of a filing: not above the limit, not below the filed count.
pub(crate) fn check_filing(standing: &Standing, n: u32) -> Result<(), Refusal>
    ensures { result ≡ allowed (file_fault (grant_of standing.now.last) standing.now.filed n) }
{
    let limit = standing.last.limit();
    if n > limit {
        return Err(Layer::Tracker.refuse(Reason::FilingAboveLimit, u64::from(limit)));
    }
    if n < standing.filed {
        return Err(Layer::Tracker.refuse(Reason::FilingBelowFiled, u64::from(standing.filed)));
    }
    Ok(())
}
