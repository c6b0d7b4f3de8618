// The exports of the sums over all chords, for other languages to link.
#![tactic(auto)]

ghost use Rattle.std.specs.Prelude.{◌≡◌};
ghost use Rattle.measure.specs.Synchronous.{synchronous};
ghost use Rattle.measure.specs.Distance.{distance};
ghost use Rattle.measure.specs.Area.{area};
ghost use Rattle.chords.specs.Every.{put_in_turn, every_error};

use chords::Place;

// The sum of the synchronous errors of all chords: the library's function under the name that C links, as those below.
#[unsafe(no_mangle)]
pub extern "C" fn chords_synchronous(places: &[Place]) -> u64
    ensures { result ≡ every_error synchronous (put_in_turn places.now) }
{
    chords::chords_synchronous(places)
}

// The sum of the distance errors of all chords.
#[unsafe(no_mangle)]
pub extern "C" fn chords_distance(places: &[Place]) -> u64
    ensures { result ≡ every_error distance (put_in_turn places.now) }
{
    chords::chords_distance(places)
}

// The sum of the area errors of all chords.
#[unsafe(no_mangle)]
pub extern "C" fn chords_area(places: &[Place]) -> u64
    ensures { result ≡ every_error area (put_in_turn places.now) }
{
    chords::chords_area(places)
}
