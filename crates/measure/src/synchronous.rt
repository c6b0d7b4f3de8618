// The synchronous measure: how far the points are from where the chord has come at their times, if it is run through evenly.
ghost use Rattle.std.specs.Prelude.{◌≡◌, ◌*◌, ◌<◌, ◌≤◌, ◌-ℤ◌, ◌*ℤ◌};
ghost use Rattle.tray.specs.Trays.{stroke as stroke_of};
ghost use Rattle.measure.specs.Chords.{Within};
ghost use Rattle.measure.specs.Steps.{square, rounded_up};
ghost use Rattle.measure.specs.Synchronous.{lags, synchronous, synchronous_error, LeastSynchronous};
ghost use Rattle.measure.specs.Lags.{synchronous_limit};
ghost use Rattle.measure.specs.Answered.{bare_limited, bare_within};

use crate::chord::Chord;
use crate::measure::Measure;
use crate::offset::Offset;
use tray::point::Point;
use tray::tray::Lifted;

#[derive(Clone, Copy)]
pub struct Synchronous;

// The square of the cross product of two ways. The cast serves the speed: with `unsigned_abs` the widening keeps a negation and a choice in the loop.
fn cross_squared(a: Offset, b: Offset) -> u64
    ensures value { result ≡ square (a.dx *ℤ b.dy -ℤ a.dy *ℤ b.dx) }
    ensures small { result ≤ 4 * ((8191 * 8191) * (8191 * 8191)) }
{
    let c = a.cross(b) as i64;
    (c * c) as u64
}

// The squares of the lags of k in both coordinates, on the chord from p to q.
fn lags_of(p: Point, q: Point, k: Point) -> u64
    requires { Within p q k }
    ensures { result ≡ lags p q k }
{
    let part = k.t - p.t;
    let whole = q.t - p.t;
    let x = cross_squared(
        Offset::in_time(p.x, k.x, part),
        Offset::in_time(p.x, q.x, whole),
    );
    let y = cross_squared(
        Offset::in_time(p.y, k.y, part),
        Offset::in_time(p.y, q.y, whole),
    );
    x + y
}

// A sum over the square of a time, rounded up.
fn over_square(sum: u64, whole: u32) -> u64
    requires { 0 < whole }
    ensures { result ≡ rounded_up sum (whole * whole) }
{
    let w = whole as u64;
    sum.div_ceil(w * w)
}

// The sum of the squares of the lags of a chord over the square of its time, rounded up.
fn synchronous_of(chord: &Chord) -> u64
    ensures { result ≡ synchronous_error chord.now.points.now chord.now.from chord.now.to }
{
    let p = chord.start();
    let q = chord.end();
    // Tried as an iterator's `sum`: its loop has no vectors, and all chords then take an eighth longer.
    let mut sum: u64 = 0;
    for k in chord.between() {
        sum += lags_of(p, q, *k);
    }
    over_square(sum, chord.lasting())
}

impl Measure for Synchronous {
    ghost meaning = { λ _. synchronous };

    ghost limited = { λ m. bare_limited synchronous_error synchronous_limit };

    ghost within = { λ m. bare_within synchronous_error };

    // An answered error is the least whole number E for which the sum of the squares is at most E times the square of the time.
    fn error(&self, stroke: &Lifted, i: usize, j: usize) -> Option<u64>
        ensures value { result ≡ synchronous (stroke_of stroke.now) i j }
        ensures least { LeastSynchronous (stroke_of stroke.now) i j result }
    {
        let chord = Chord::of(stroke, i, j)?;
        Some(synchronous_of(&chord))
    }
}
