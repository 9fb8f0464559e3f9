ghost use Rattle.std.specs.Prelude.{◌≡◌};
ghost use Rattle.tracker.specs.Meetings.{handed, packed_fault, hands_on, HandsOnKept};
ghost use Rattle.tracker.specs.Checks.{allowed};

use crate::slip::Slip;
use frame::refusal::{Layer, Reason, Refusal};
use packed::reads::PackedKey;
use packed::view::PackedView;
use transcript::view::Transcript;

// Whether a slip with these numbers would be met.
pub(crate) fn check_packed<'a, 'p, K: PackedKey>(
    view: &PackedView<'a, 'p, K>,
    from: u32,
    to: u32,
) -> Result<(), Refusal>
    ensures { result ≡ allowed (packed_fault K.PackedKey.reads view.now (record { from = from; to = to })) }
{
    let first = view.first();
    if from != first || to < from || to > view.total() {
        return Err(Layer::Transcript.refuse(Reason::OtherSlip, u64::from(first)));
    }
    Ok(())
}

// A packed transcript meets a slip: it hands on the bytes from the first kept line, none where no line
// is kept.
pub fn meet_packed<'a, 'p, K: PackedKey>(
    view: &PackedView<'a, 'p, K>,
    slip: Slip,
) -> Result<&'a [u8], (Refusal, Slip)>
    ensures answer { handed result ≡ hands_on K.PackedKey.reads view.now slip }
    ensures kept { HandsOnKept K.PackedKey.reads view.now slip result }
{
    let to = slip.to();
    match check_packed(view, slip.from(), to) {
        Ok(()) => {
            slip.spend();
            Ok(view.bytes_from(to))
        }
        Err(refusal) => Err((refusal, slip)),
    }
}

#[cfg(test)]
mod tests {
    use super::*;
    use std::test::Fail;
    use transcript::keys::turn::Turn;

    #[test]
    fn a_slip_of_other_lines_is_refused(rt: HostRuntime) -> Result<(), Fail> {
        let view: PackedView<Turn> = PackedView::new(5, &[], &[])?;
        if let Err((refusal, slip)) = meet_packed(&view, Slip::new(5, 6)) {
            slip.spend();
            assert_eq!(rt; refusal.reason.number(), 27);
            assert_eq!(rt; refusal.place, 5);
            assert_eq!(rt; refusal.layer.number(), 5);
            return Ok(());
        }
        Err(Fail::new("met a slip of other lines"))
    }
}
