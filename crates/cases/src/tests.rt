// Runs of the public calls, and what they share: the two worked strokes, and what a tray's call answers or refuses.
use refusal::{Layer, Told};
use std::process::Abort;
use std::test::Fail;
use tray::causes::Refusal;
use tray::tray::Writing;

mod measures;
mod pages;
mod reduces;
mod trays;

// A tray with these points put in turn, each as x, y and t.
fn drawn<const N: usize>(points: [(i32, i32, u32); N]) -> Result<Writing, Refusal> {
    let mut tray = Writing::new();
    for (x, y, t) in points {
        tray.put(x, y, t)?;
    }
    Ok(tray)
}

fn hook() -> Result<Writing, Refusal> {
    drawn([(0, 0, 0), (1, 4, 1), (2, 4, 2), (3, 3, 3), (4, 0, 4)])
}

fn wave() -> Result<Writing, Refusal> {
    drawn([(0, 0, 0), (1, 2, 1), (2, 0, 2), (3, -2, 3), (4, 0, 4)])
}

// The call was answered with this number.
fn answers(rt: &impl Abort, said: Result<u16, Refusal>, number: u16) -> Result<(), Fail> {
    assert_eq!(rt; said?, number);
    Ok(())
}

// The call was refused by this layer with this number, at this place.
fn refuses<T: Drop, E>(
    rt: &impl Abort,
    layer: Layer,
    said: Result<T, E>,
    number: u16,
    place: usize,
) -> Result<(), Fail>
where
    Told: From<E>,
{
    match said {
        Ok(_) => Err(Fail::new("not refused")),
        Err(refusal) => {
            assert_eq!(rt;
                Told::from(refusal),
                Told {
                    number,
                    place,
                    layer,
                }
            );
            Ok(())
        },
    }
}
