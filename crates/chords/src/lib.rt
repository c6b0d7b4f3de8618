// Every chord of a stroke, measured: the sums of all errors, for other languages to call and to time.
#![tactic(auto)]

ghost use Rattle.std.specs.Prelude.{◌≡◌, ◌≤◌};
ghost use Rattle.tray.specs.Trays.{stroke as stroke_of};
ghost use Rattle.measure.specs.Synchronous.{synchronous};
ghost use Rattle.measure.specs.Distance.{distance};
ghost use Rattle.measure.specs.Area.{area};
ghost use Rattle.chords.specs.Every.{put_in_turn, errors_to, every_error};

use measure::area::Area;
use measure::distance::Distance;
use measure::measure::Measure;
use measure::synchronous::Synchronous;
use tray::tray::{Lifted, Writing};

// A place and a time, as other languages lay them out.
#[repr(C)]
#[derive(Clone, Copy)]
pub struct Place {
    pub x: i32,
    pub y: i32,
    pub t: u32,
}

// The stroke of these places, put in turn; a refused one is left out.
fn drawn(places: &[Place]) -> Lifted
    ensures { stroke_of result ≡ put_in_turn places.now }
{
    let mut tray = Writing::new();
    for p in places {
        let _ = tray.put(p.x, p.y, p.t);
    }
    tray.lift()
}

// The sum of the errors of the chords to the point j.
fn to_point<M: Measure>(measure: &M, stroke: &Lifted, j: usize) -> u64
    requires first { 1 ≤ j }
    requires last { j ≤ 512 }
    ensures { result ≡ errors_to (M.Measure.meaning measure.now) (stroke_of stroke.now) j }
{
    (1..j).filter_map(|i| measure.error(stroke, i, j)).sum()
}

// The sum of the errors of all chords.
fn every_chord<M: Measure>(measure: &M, stroke: &Lifted) -> u64
    ensures { result ≡ every_error (M.Measure.meaning measure.now) (stroke_of stroke.now) }
{
    let n = stroke.points().len();
    (1..=n).map(|j| to_point(measure, stroke, j)).sum()
}

// The sum of the synchronous errors of all chords. C links these three through `chords_c`, so each has a name and no type parameter.
#[unsafe(no_mangle)]
pub extern "C" fn chords_synchronous(places: &[Place]) -> u64
    ensures { result ≡ every_error synchronous (put_in_turn places.now) }
{
    every_chord(&Synchronous, &drawn(places))
}

// The sum of the distance errors of all chords.
#[unsafe(no_mangle)]
pub extern "C" fn chords_distance(places: &[Place]) -> u64
    ensures { result ≡ every_error distance (put_in_turn places.now) }
{
    every_chord(&Distance, &drawn(places))
}

// The sum of the area errors of all chords.
#[unsafe(no_mangle)]
pub extern "C" fn chords_area(places: &[Place]) -> u64
    ensures { result ≡ every_error area (put_in_turn places.now) }
{
    every_chord(&Area, &drawn(places))
}
