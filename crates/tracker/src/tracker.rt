ghost use Rattle.tracker.specs.Sound.{Kept, Shown, Rowed, Room, Past, Within, Rising, Passed, Behind};

use crate::standing::Standing;
use std::marker::PhantomData;

// The caller's table of turn ends.
#[derive(Drop)]
pub(crate) struct TurnTable<'a> {
    pub(crate) ends: &'a mut [u64],
}

// Tracks the windows of a frame over a transcript that grows, whose keys are of kind K.
#[derive(Drop)]
pub struct Tracker<'a, K> {
    pub(crate) standing: Standing,
    pub(crate) table: TurnTable<'a>,
    pub(crate) kind: PhantomData<K>,
    ghost kept: { Kept standing },
    ghost shown: { Shown standing },
    ghost rowed: { Rowed standing },
    ghost room: { Room standing table.ends.now },
    ghost past: { Past standing table.ends.now },
    ghost within: { Within standing table.ends.now },
    ghost rising: { Rising standing table.ends.now },
    ghost passed: { Passed standing table.ends.now },
    ghost behind: { Behind standing },
}
