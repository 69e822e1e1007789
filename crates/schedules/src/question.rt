// Questions 9 to 12, each about some items, one after another. The answer has a row for each. How it all stands among octets: said.rt.
ghost use Rattle.std.specs.Prelude.{◌<◌};

use super::routine::{State, Which, discarded};
use super::said::{self, EVENT, RECORD, RECORDS, SAID, Said};
use asked::reply::Reply;
use asked::{MOST, NUMBERS};
use reception::{Attempt, Streams};
use rows::records;
use sheet::Refusal;

// Behind the sheet's numbers stand the eight records, where a question has them.
const START: usize = NUMBERS + RECORDS;

// A record seen and an event; a step; four events, and they with eight moves; a stream, a record seen and one wanted.
const SEEN_EVENT: usize = RECORD + EVENT;

const STEP: usize = 2 + EVENT;

const EVENTS: usize = 4 * EVENT;

const SCHEDULE: usize = EVENTS + 8;

const ATTEMPT: usize = 1 + 2 * RECORD;

// How many rows an answer has at most: of what a step says, of that and the records after it, and of what the four stores of a schedule say and the
// records after them.
const SAIDS: usize = MOST / SAID;

const STEPS: usize = MOST / (SAID + RECORDS);

const SCHEDULES: usize = MOST / (4 * SAID + RECORDS);

// The items of so many octets each from a place on, and so many of them at most.
fn items<const SIZE: usize>(body: &[u8], start: usize, most: usize) -> &[[u8; SIZE]]
    requires { 0 < SIZE }
{
    let (items, _) = body.get(start..).unwrap_or_default().as_chunks::<SIZE>();
    &items[..items.len().min(most)]
}

// The records behind a value's numbers; free ones where there are none.
fn records_of(body: &[u8]) -> Streams {
    match body.get(NUMBERS..START) {
        Some(octets) => said::records_in(octets),
        None => reception::all_free(),
    }
}

// The state that a body sets out, before the first step.
fn first(body: &[u8]) -> State {
    State::first(asked::sheet_in(body), records_of(body))
}

// What a step said, and behind it the records.
fn put_step(reply: &mut Reply, state: &State, said: Result<Said, Refusal>) {
    reply.octets(&said::or_refused(said));
    reply.octets(&said::octets_of(state.records));
}

// 9: what an event makes of the record seen before it, under the numbers of a value. Answer: what the working-out says.
fn attempts(body: &[u8]) -> Reply {
    let first = first(body);
    let mut reply = Reply::empty();
    for item in items::<SEEN_EVENT>(body, NUMBERS, SAIDS) {
        let mut state = first;
        state.one.seen = records::record_at(item, 0);
        let said = state.works_out(Which::One, said::event_at(item, RECORD));
        reply.octets(&said::or_refused(said));
    }
    reply
}

// Which of two routines an octet names.
fn routine_of(octet: u8) -> Which {
    if octet == 0 { Which::One } else { Which::Other }
}

// What a step says: what is done (1 read, 2 work out, 3 store, 4 count), the routine, and the stream or the event. (A match on a number, as it comes from outside.)
fn step(state: &mut State, item: &[u8; STEP]) -> Result<Said, Refusal> {
    let which = routine_of(item[1]);
    let stream = item[2];
    match item[0] {
        1 => state.reads(which, stream),
        2 => state.works_out(which, said::event_at(item, 2)),
        3 => state.stores(which),
        _ => state.counts(stream),
    }
}

// 10: steps of two routines on the eight records that stand behind the numbers of a value. Answer: what each says, and the records after it.
fn steps(body: &[u8]) -> Reply {
    let mut state = first(body);
    let mut reply = Reply::empty();
    for item in items::<STEP>(body, START, STEPS) {
        let said = step(&mut state, item);
        put_step(&mut reply, &state, said);
    }
    reply
}

// A move about event k: its routine stores what it worked out, or it reads the event's stream and works the event out. (Which, says a bit that comes from outside.)
fn moved(
    state: &mut State,
    item: &[u8; SCHEDULE],
    k: usize,
    is_store: bool,
) -> Result<Said, Refusal>
    requires { k < 4 }
{
    let which = if k < 2 { Which::One } else { Which::Other };
    if is_store {
        return state.stores(which);
    }
    let event = said::event_at(item, k * EVENT);
    // A routine that may not read works out what it holds.
    let _ = state.reads(which, event.stream);
    state.works_out(which, event)
}

// A schedule: two routines with two events each, from the eight records that stand behind the numbers of a value. Events 0 and 1 are one routine's, 2
// and 3 the other's; a move is twice its event's place, where the routine reads and works out, and one more where it stores.
fn put_schedule(reply: &mut Reply, mut state: State, item: &[u8; SCHEDULE]) {
    let mut saids = [[0; SAID]; 4];
    for next in &item[EVENTS..] {
        let k = usize::from(next / 2 % 4);
        saids[k] = said::or_refused(moved(&mut state, item, k, next % 2 == 1));
    }
    reply.octets(saids.as_flattened());
    reply.octets(&said::octets_of(state.records));
}

// 11: such schedules. Answer: what the last move of each event says, and the records after all.
fn schedules(body: &[u8]) -> Reply {
    let first = first(body);
    let mut reply = Reply::empty();
    for item in items::<SCHEDULE>(body, START, SCHEDULES) {
        put_schedule(&mut reply, first, item);
    }
    reply
}

// The attempt that an item is: a stream, a record seen and one wanted; nobody need have worked it out, and its answer is "discarded".
fn attempt_in(item: &[u8; ATTEMPT]) -> Attempt {
    let octets = &item[1..];
    discarded(
        item[0],
        records::record_at(octets, 0),
        records::record_at(octets, 1),
    )
}

// 12: a store of such an attempt into the eight records that stand behind the numbers of a value. Answer: what it says, and the records after it.
fn stores(body: &[u8]) -> Reply {
    let first = first(body);
    let mut reply = Reply::empty();
    for item in items::<ATTEMPT>(body, START, STEPS) {
        let mut state = first;
        state.one.attempt = attempt_in(item);
        let said = state.stores(Which::One);
        put_step(&mut reply, &state, said);
    }
    reply
}

// The answer to a question; none to one that is not known. (A match on a number, as it comes from outside.)
pub fn answer(asked: u8, body: &[u8]) -> Reply {
    match asked {
        9 => attempts(body),
        10 => steps(body),
        11 => schedules(body),
        12 => stores(body),
        _ => Reply::empty(),
    }
}
