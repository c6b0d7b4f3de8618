// The two states of a tray, as two types.
use crate::table::Table;

// A tray with the pen down.
#[derive(Drop)]
pub struct Writing {
    pub(crate) table: Table,
}

// A tray with the pen up: a lifted stroke.
#[derive(Drop)]
pub struct Lifted {
    pub(crate) table: Table,
}
