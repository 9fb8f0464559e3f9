ghost use Rattle.std.specs.Prelude.{◌≡◌, length};
ghost use Rattle.packed.specs.Views.{from_line};
ghost use Rattle.sitting.specs.Rules.{answered, settled, filed_to};
ghost use Rattle.tracker.specs.Meetings.{packed_fault};
ghost use Rattle.tracker.specs.Rolls.{held_of, kept_from, kept_slots};
ghost use Rattle.tracker.specs.Trackers.{state_of};
ghost use Rattle.tracker.specs.Transfers.{slip_of, either_fault, roll_fault, passed_on};

use crate::checks::check_filing;
use crate::meeting::check_packed;
use crate::roll::Roll;
use crate::tracker::Tracker;
use frame::refusal::Refusal;
use packed::reads::PackedKey;
use packed::view::PackedView;
use transcript::keys::KeyKind;

// Files lines away, and has the roll that holds them meet the slip at once. Answers the filed counts
// before and since; where the filing or the meeting is refused, nothing changes.
pub fn file_roll<K: KeyKind>(
    tracker: &mut Tracker<'_, K>,
    roll: &mut Roll,
    array: &mut [Option<K>],
    n: u32,
) -> Result<(u32, u32), Refusal>
    ensures answer { result ≡ answered (roll_fault (state_of tracker.old) n (held_of roll.old) (length array.old)) ((state_of tracker.old).filed, n) }
    ensures tracker { state_of tracker.new ≡ settled (roll_fault (state_of tracker.old) n (held_of roll.old) (length array.old)) (state_of tracker.old) (filed_to (state_of tracker.old) n) }
    ensures roll { held_of roll.new ≡ settled (roll_fault (state_of tracker.old) n (held_of roll.old) (length array.old)) (held_of roll.old) (kept_from n (held_of roll.old)) }
    ensures array { array.new ≡ settled (roll_fault (state_of tracker.old) n (held_of roll.old) (length array.old)) array.old (kept_slots n (held_of roll.old) array.old) }
    ensures lent { tracker.new.table.ends.ghost_name ≡ tracker.old.table.ends.ghost_name }
{
    let standing = tracker.standing;
    let from = standing.filed;
    check_filing(&standing, n)?;
    roll.check_slip(array.len(), from, n)?;
    let slip = tracker.file(n)?;
    slip.spend();
    roll.move_on(array, n);
    Ok((from, n))
}

// The same over packed bytes. Answers the filed count before, and the bytes from the first kept line on.
pub fn file_packed<'b, 'p, K: PackedKey>(
    tracker: &mut Tracker<'_, K>,
    view: &PackedView<'b, 'p, K>,
    n: u32,
) -> Result<(u32, &'b [u8]), Refusal>
    ensures answer { passed_on result ≡ answered (either_fault (state_of tracker.old) n (packed_fault K.PackedKey.reads view.now (slip_of (state_of tracker.old) n))) ((state_of tracker.old).filed, from_line view.now n) }
    ensures tracker { state_of tracker.new ≡ settled (either_fault (state_of tracker.old) n (packed_fault K.PackedKey.reads view.now (slip_of (state_of tracker.old) n))) (state_of tracker.old) (filed_to (state_of tracker.old) n) }
    ensures lent { tracker.new.table.ends.ghost_name ≡ tracker.old.table.ends.ghost_name }
{
    let standing = tracker.standing;
    let from = standing.filed;
    check_filing(&standing, n)?;
    check_packed(view, from, n)?;
    let slip = tracker.file(n)?;
    slip.spend();
    Ok((from, view.bytes_from(n)))
}
