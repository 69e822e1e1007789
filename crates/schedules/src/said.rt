// What reception speaks of, among the octets of a case or an answer.
// A record is two octets: phase (0 Free, 1 Idle, 2 Watched, 3 Ending), receivers.
// An event is four: what (1 request, 2 end, 3 open, 4 T11, 5 end response, 6 release), stream, by, Ack asked.
// What a step says is fourteen, zeros where there is nothing: the refusal's number and line; the stream; the record read or seen; the record
// wanted; the answer. A count stands in place of the record. An answer is seven: its number (1 grant, 2 reject, 3 ended, 4 end request,
// 5 freed by an end response, 6 opened, 7 released, 8 discarded), the kind of the message or 0, Result or 255, cause (two octets) or
// 65535, the timers to stop and those to start, each a sum of T3 1, T5 2, T6 4, T11 8.
use octets::u32_at;
use reception::{Answer, Attempt, Event, Record, Streams, What};
use rows::{answer, records};
use sheet::Refusal;
use std::array;

// How many octets a record, eight of them, an event, and what a step says take.
pub const RECORD: usize = 2;

pub const RECORDS: usize = 8 * RECORD;

pub const EVENT: usize = 4;

pub const SAID: usize = 14;

pub type Said = [u8; SAID];

// Where in it the stream stands, and where the records and the answer begin.
const STREAM: usize = 2;

const SEEN: usize = 3;

const ANSWER: usize = SEEN + 2 * RECORD;

// The eight records that octets are.
pub fn records_in(octets: &[u8]) -> Streams {
    array::from_fn(|k| records::record_at(octets, k as u8))
}

// The event that octets are, from a place on; those past the end count as 0. (A match on a number, as it comes from outside.)
pub fn event_at(octets: &[u8], at: usize) -> Event {
    let [what, stream, by, ack] = u32_at(octets, at).to_be_bytes();
    let what = match what {
        1 => What::Request(by),
        2 => What::End(by),
        3 => What::Open,
        4 => What::T11,
        5 => What::EndResponse(ack == 1),
        _ => What::Release,
    };
    Event { stream, what }
}

// ---- what a step says

// The last octet of a number.
fn octet(n: u32) -> u8 {
    (n % 256) as u8
}

fn refused(refusal: Refusal) -> Said {
    let mut said = [0; SAID];
    said[0] = octet(refusal.number());
    said[1] = octet(refusal.line());
    said
}

// What a step says, or its refusal.
pub fn or_refused(said: Result<Said, Refusal>) -> Said {
    said.unwrap_or_else(refused)
}

// What is said of a stream, before more is.
fn on(stream: u8) -> Said {
    let mut said = [0; SAID];
    said[STREAM] = stream;
    said
}

pub fn seen(stream: u8, own: Record) -> Said {
    let mut said = on(stream);
    records::put_at(&mut said[SEEN..], 0, own);
    said
}

pub fn counted(stream: u8, n: u32) -> Said {
    let mut said = on(stream);
    said[SEEN] = octet(n);
    said
}

pub fn taken(stream: u8, answer: Answer) -> Said {
    let [done, kind, res, cause, stops, starts] = answer::row_of(answer);
    let [_, _, high, low] = cause.to_be_bytes();
    let mut said = on(stream);
    said[ANSWER..].copy_from_slice(&[
        octet(done),
        octet(kind),
        octet(res),
        high,
        low,
        octet(stops),
        octet(starts),
    ]);
    said
}

pub fn worked_out(attempt: Attempt) -> Said {
    let mut said = taken(attempt.stream, attempt.answer);
    records::put_at(&mut said[SEEN..], 0, attempt.seen);
    records::put_at(&mut said[SEEN..], 1, attempt.wanted);
    said
}

// ---- records

// Records as octets.
pub fn octets_of(records: Streams) -> [u8; RECORDS] {
    let mut octets = [0u8; RECORDS];
    for k in 0..8u8 {
        records::put_at(&mut octets, k, records[usize::from(k)]);
    }
    octets
}
