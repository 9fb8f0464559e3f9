ghost use Rattle.std.specs.Prelude.{◌≡◌, ◌+◌, ◌≤◌, length};
ghost use Rattle.transcript.specs.Stamps.{meaning};
ghost use Rattle.tracker.specs.Rolls.{held_of, adding, added, add_slots, meet_fault, given_back, kept_from, kept_slots, met, met_slots, rolled};
ghost use Rattle.tracker.specs.Checks.{allowed};

use super::Roll;
use crate::slip::Slip;
use frame::refusal::{Layer, Reason, Refusal};
use transcript::keys::KeyKind;
use transcript::stamps::StampView;

impl Roll {
    // An empty roll, whose first line will be this one.
    pub fn starting(first: u32) -> Roll
        ensures { held_of result ≡ record { first = first; count = 0 } }
    {
        Roll { first, count: 0 }
    }

    // The number of the first line, and how many lines there are.
    pub fn numbers(&self) -> (u32, u32)
        ensures first { result.0 ≡ (held_of self.now).first }
        ensures count { result.1 ≡ (held_of self.now).count }
    {
        (self.first, self.count)
    }

    // Adds a line, and answers its number.
    pub fn add<K: Copy>(
        &mut self,
        array: &mut [Option<K>],
        stamp: Option<K>,
    ) -> Result<u32, Refusal>
        ensures answer { result ≡ adding (held_of self.old) (length array.old) }
        ensures roll { held_of self.new ≡ added (held_of self.old) (length array.old) }
        ensures array { array.new ≡ add_slots (held_of self.old) stamp array.old }
    {
        let total = self.first + self.count;
        if total == 4294967295 {
            return Err(Layer::Roll.refuse(Reason::TooManyLines, 0));
        }
        let room = array.len();
        if self.count as usize >= room {
            return Err(Layer::Roll.refuse(Reason::ArrayShort, room as u64));
        }
        array[self.count as usize] = stamp;
        self.count += 1;
        Ok(total)
    }

    // Whether a slip with these numbers would be met.
    pub(crate) fn check_slip(&self, room: usize, from: u32, to: u32) -> Result<(), Refusal>
        ensures { result ≡ allowed (meet_fault (held_of self.now) room (record { from = from; to = to })) }
    {
        if self.count as usize > room {
            return Err(Layer::Roll.refuse(Reason::ArrayShort, room as u64));
        }
        if from != self.first || to < from || to > self.first + self.count {
            return Err(Layer::Roll.refuse(Reason::OtherSlip, u64::from(self.first)));
        }
        Ok(())
    }

    // The lines before `to` go, and those kept move to the front.
    pub(crate) fn move_on<K: Copy>(&mut self, array: &mut [Option<K>], to: u32)
        requires room { self.old.count ≤ length array.old }
        requires low { self.old.first ≤ to }
        requires high { to ≤ self.old.first + self.old.count }
        ensures roll { held_of self.new ≡ kept_from to (held_of self.old) }
        ensures array { array.new ≡ kept_slots to (held_of self.old) array.old }
    {
        let gone = to - self.first;
        let kept = self.count - gone;
        array.copy_within(gone as usize..self.count as usize, 0);
        self.first = to;
        self.count = kept;
    }

    // Meets a slip: the lines before its second number go, and those kept move to the front.
    pub fn meet<K: Copy>(
        &mut self,
        array: &mut [Option<K>],
        slip: Slip,
    ) -> Result<(), (Refusal, Slip)>
        ensures answer { result ≡ given_back slip (meet_fault (held_of self.old) (length array.old) slip) tt }
        ensures roll { held_of self.new ≡ met (held_of self.old) (length array.old) slip }
        ensures array { array.new ≡ met_slots (held_of self.old) slip array.old }
    {
        let to = slip.to();
        match self.check_slip(array.len(), slip.from(), to) {
            Ok(()) => {
                slip.spend();
                self.move_on(array, to);
                Ok(())
            }
            Err(refusal) => Err((refusal, slip)),
        }
    }

    // A view of the lines.
    pub fn view<'b, K: KeyKind>(&self, array: &'b [Option<K>]) -> Result<StampView<'b, K>, Refusal>
        ensures { meaning result ≡ rolled (held_of self.now) array.now }
    {
        let room = array.len();
        if self.count as usize > room {
            return Err(Layer::Roll.refuse(Reason::ArrayShort, room as u64));
        }
        StampView::new(self.first, &array[0..self.count as usize])
    }
}

#[cfg(test)]
mod tests {
    use super::*;
    use std::test::Fail;
    use transcript::keys::elapsed::Elapsed;

    #[test]
    fn a_slip_of_other_lines_is_refused(rt: HostRuntime) -> Result<(), Fail> {
        let mut array: [Option<Elapsed>; 1] = [None];
        let mut roll = Roll::starting(5);
        if let Err((refusal, slip)) = roll.meet(&mut array, Slip::new(4, 5)) {
            slip.spend();
            assert_eq!(rt; refusal.reason.number(), 27);
            assert_eq!(rt; refusal.place, 5);
            assert_eq!(rt; refusal.layer.number(), 7);
            return Ok(());
        }
        Err(Fail::new("met a slip of other lines"))
    }
}
