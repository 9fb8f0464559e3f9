ghost use Rattle.std.specs.Prelude.{◌≤◌, length};

mod calls;

// The words of a clause that are still to be read.
#[derive(Drop)]
pub struct Words<'a> {
    text: &'a [u8],
    at: usize,
    ghost within: { at ≤ length text.now },
}
