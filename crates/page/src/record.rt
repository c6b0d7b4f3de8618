// The record at the front of the bytes that are left.
ghost use Rattle.std.specs.Prelude.{◌≡◌, ◌≢◌, length, MatchResult};
ghost use Rattle.page.specs.declared.fault.PageCause.TheVariants.{WrongLength};
ghost use Rattle.page.specs.Records.{known, sized, front};
ghost use Rattle.page.specs.Walks.{alone_of, front_of};

use crate::fault::{PageCause, PageFault};
use crate::kinds::{Placed, Record};
use crate::record_kind::Kind;

// A payload of N bytes.
fn of_length<const N: usize>(payload: &[u8]) -> Result<&[u8; N], PageCause>
    ensures { MatchResult result (λ p. (p.now ≡ payload.now) × (length payload.now ≡ N)) (λ c. (c ≡ WrongLength) × (length payload.now ≢ N)) }
{
    payload.try_into().map_err(|_| PageCause::WrongLength)
}

// The record of this kind with this payload, or why a page of strokes has none.
fn of_kind<'a>(kind: u16, payload: &'a [u8]) -> Result<Record<'a>, PageCause>
    ensures { alone_of result ≡ sized (length payload.now) payload.now (known kind payload.now) }
{
    match Kind::try_from(kind) {
        Ok(Kind::Start) => Ok(Record::Start(of_length(payload)?)),
        Ok(Kind::Plain) => Ok(Record::Plain(of_length(payload)?)),
        Ok(Kind::Corner) => Ok(Record::Corner(of_length(payload)?)),
        Ok(Kind::Order) => Ok(Record::Order(of_length(payload)?)),
        _ => Err(PageCause::StrangeKind),
    }
}

// The record at the front of `rest`, which begins at `place` of the page, and what follows it.
pub(crate) fn first_record<'a>(
    rest: &'a [u8],
    place: usize,
) -> Result<(Placed<'a>, &'a [u8]), PageFault>
    ensures front { front_of result ≡ front rest.now }
    ensures place { MatchResult result (λ x. x.0.place ≡ place) (λ f. f.place ≡ place) }
{
    let [l0, l1, k0, k1, tail @ ..] = rest else {
        return Err(PageCause::CutRecord.at(place));
    };
    let size = usize::from(u16::from_le_bytes([*l0, *l1]));
    let kind = u16::from_le_bytes([*k0, *k1]);
    if tail.len() < size {
        return Err(PageCause::CutRecord.at(place));
    }
    let (payload, after) = tail.split_at(size);
    let record = of_kind(kind, payload).map_err(|cause| cause.at(place))?;
    Ok((Placed { record, place }, after))
}
