// The calls of a tray. Each takes the step of the machine: the state after it comes from the state before it and its arguments.
ghost use Rattle.std.specs.Prelude.{◌≡◌, length};
ghost use Rattle.tray.specs.Stroke.{Lawful};
ghost use Rattle.tray.specs.Trays.{writing, lifted, stroke};
ghost use Rattle.tray.specs.Refusals.{tells};
ghost use Rattle.tray.specs.Machine.{put_says, take_back_says, mark_says};
ghost use Rattle.tray.specs.History.{new as bare_tray, step, put as calls_put, take_back as calls_take_back, lift as calls_lift, mark as calls_mark, unmark as calls_unmark, clear as calls_clear};
ghost use Rattle.tray.specs.Drawn.{DrawsExactly, StaysLawful, TakesTheLawful};

use crate::causes::Refusal;
use crate::point::{Mark, Point};
use crate::table::Table;
use crate::tray::{Lifted, Writing};

impl Writing {
    // A bare tray, with the pen down.
    pub fn new() -> Writing
        ensures bare { writing result ≡ bare_tray }
        ensures draws_exactly { DrawsExactly }
        ensures stays_lawful { StaysLawful }
        ensures takes_the_lawful { TakesTheLawful }
    {
        Writing {
            table: Table::new(),
        }
    }

    // Adds a plain point and answers its number. Its parts come one by one: there is a point only once they are accepted.
    pub fn put(&mut self, x: i32, y: i32, t: u32) -> Result<u16, Refusal>
        ensures says { tells result ≡ put_says (writing self.old).points x y t }
        ensures steps { writing self.new ≡ step (writing self.old) (calls_put x y t) }
    {
        self.table.put(x, y, t)
    }

    // Removes the last point and answers its number.
    pub fn take_back(&mut self) -> Result<u16, Refusal>
        ensures says { tells result ≡ take_back_says (writing self.old).points }
        ensures steps { writing self.new ≡ step (writing self.old) calls_take_back }
    {
        self.table.take_back()
    }

    // The same stroke with the pen up. To write on, clear and write again.
    pub fn lift(self) -> Lifted
        ensures steps { lifted result ≡ step (writing self) calls_lift }
    {
        Lifted { table: self.table }
    }

    // A bare tray, with the pen down.
    pub fn clear(self) -> Writing
        ensures steps { writing result ≡ step (writing self) calls_clear }
    {
        Self::new()
    }
}

impl Lifted {
    // Makes the point i a corner and answers i.
    pub fn mark(&mut self, i: u16) -> Result<u16, Refusal>
        ensures says { tells result ≡ mark_says (stroke self.old) i }
        ensures steps { lifted self.new ≡ step (lifted self.old) (calls_mark i) }
    {
        self.table.set_mark(i, Mark::Corner)
    }

    // Makes the point i plain and answers i. A call of its own: the history of a tray has two calls here.
    pub fn unmark(&mut self, i: u16) -> Result<u16, Refusal>
        ensures says { tells result ≡ mark_says (stroke self.old) i }
        ensures steps { lifted self.new ≡ step (lifted self.old) (calls_unmark i) }
    {
        self.table.set_mark(i, Mark::Plain)
    }

    // A bare tray, with the pen down. Each pen is a type of its own, so each has this call.
    pub fn clear(self) -> Writing
        ensures steps { writing result ≡ step (lifted self) calls_clear }
    {
        Writing::new()
    }

    // The points of the stroke, in their order.
    pub fn points(&self) -> &[Point]
        ensures value { result.now ≡ stroke self.now }
        ensures lawful { Lawful result.now }
    {
        &self.table.points[0..self.table.len]
    }
}
