// An event as a row of numbers: what, stream, by, Ack asked. Numbers, as they are what C lends and is lent.
ghost use Rattle.std.specs.Prelude.{◌≡◌};
ghost use Rattle.rows.specs.Rows.{event_row};
ghost use Rattle.rows.specs.Promises.{put_event≡, event_in≡};
ghost use Rattle.rows.specs.Inner.{likely_what};

use super::{is_row, put};
use reception::{Event, What};
use sheet::Refusal;

// How many numbers an event's row has.
const EVENT: usize = 4;

// ---- an event as a row

#[tactic(auto, unfolding(crate::specs::Rows::what_row, packet::specs::Row::flag))]
fn row_of(event: Event) -> [u32; EVENT]
    ensures { result ≡ event_row event }
{
    let stream = u32::from(event.stream);
    match event.what {
        What::Request(by) => [1, stream, u32::from(by), 0],
        What::End(by) => [2, stream, u32::from(by), 0],
        What::Open => [3, stream, 0, 0],
        What::T11 => [4, stream, 0, 0],
        What::EndResponse(ack) => [5, stream, 0, u32::from(ack)],
        What::Release => [6, stream, 0, 0],
    }
}

// Puts an event's row into the front of a slice, or 11.
pub fn put_event(out: &mut [u32], event: Event) -> Result<(), Refusal>
    ensures { put_event≡ out.old event result out.new }
{
    put(out, &row_of(event))
}

// ---- a row as an event

// What happens by a row's number, or a release for any other.
fn likely(number: u32, by: u8, ack: bool) -> What
    ensures { result ≡ likely_what number by ack }
{
    match number {
        1 => What::Request(by),
        2 => What::End(by),
        3 => What::Open,
        4 => What::T11,
        5 => What::EndResponse(ack),
        _ => What::Release,
    }
}

// The event that a row stands for, if it stands for one with seats that fit an octet.
#[tactic(auto, using(crate::proofs::Laws::Events::event_uncounted))]
pub fn event_in(row: &[u32]) -> Option<Event>
    ensures { event_in≡ row.now result }
{
    let [number, stream, by, ack] = *row else {
        return None;
    };
    let stream = u8::try_from(stream).ok()?;
    let by = u8::try_from(by).ok()?;
    let event = Event {
        stream,
        what: likely(number, by, ack == 1),
    };
    if is_row(row, &row_of(event)) {
        Some(event)
    } else {
        None
    }
}
