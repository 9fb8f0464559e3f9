ghost use Rattle.std.specs.Prelude.{◌+◌, ◌≤◌};

mod calls;

// Lines held in an array that is handed in with each call: the number of the first, and how many there
// are. They stand in front of the array.
#[derive(Drop)]
pub struct Roll {
    first: u32,
    count: u32,
    ghost fits: { first + count ≤ 4294967295 },
}
