// Where a walk through a page stands.
ghost use Rattle.std.specs.Prelude.{◌+◌, ◌^◌, ◌<◌, length};

use crate::kinds::Part;

// The bytes that are left, the place of the first of them on the page, and whether a stroke is open there.
#[derive(Clone, Copy)]
pub struct Walk<'a> {
    pub rest: &'a [u8],
    pub place: usize,
    pub part: Part,
    ghost room: { place + length rest.now < 2 ^ 64 },
}
