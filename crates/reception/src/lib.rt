// Reception control (document 01, "Three steps"): a record for each stream, and the three steps by which two routines share it: read, work
// out, store. Records, events and answers are those of `streams`, handed on by their names. Each stands twice: `read` and the like take a sheet's struct,
// `read_lent` and the like its numbers, which the calls of the C interface are lent; the one is a call of the other, and a trait over
// both would be longer than the four calls.
#![tactic(auto)]

ghost use Rattle.std.specs.Prelude.{◌≡◌};
ghost use Rattle.sheet.specs.Value.{sheet_in};
ghost use Rattle.streams.specs.Record.{own};
ghost use Rattle.reception.specs.Inner.{admitted_said, admitted};
ghost use Rattle.reception.specs.Promises.{all_free≡, seen≡, read≡, work_out≡, settle≡, store≡, counted≡, count≡};

use sheet::numbers::{LIMIT, SEATS_LINE, are_valid, numbers_of};
use sheet::{Refusal, SEATS, Sheet};
use streams::stream;
use streams::stream::Rules;
pub use streams::{Answer, Event, Phase, Record, What};

// The records of eight streams, one for each seat as transmitter.
pub type Streams = [Record; SEATS];

// What a store is to do: the stream's record as it was seen, as it is wanted, and the answer that is given once the store took.
#[derive(Clone, Copy)]
pub struct Attempt {
    pub stream: u8,
    pub seen: Record,
    pub wanted: Record,
    pub answer: Answer,
}

// The eight records after a store, and its answer.
#[derive(Clone, Copy)]
pub struct Stored {
    pub records: Streams,
    pub taking: Result<Answer, Refusal>,
}

// The records to start with: all streams free.
#[tactic(auto, unfolding(sheet::specs::Table::most_seats))]
pub fn all_free() -> Streams
    ensures { all_free≡ result }
{
    [stream::free(); SEATS]
}

// What a stream is judged by, or 12 line 0, or 9 where it is not on the sheet. A sheet's numbers are lent.
fn admit(numbers: &[u32], stream: u8) -> Result<Rules, Refusal>
    ensures { admitted_said result ≡ admitted (sheet_in numbers.now) stream }
{
    if !are_valid(numbers) {
        return Err(Refusal::Sheet(0));
    }
    let rules = Rules {
        limit: numbers[LIMIT],
        seats: numbers[SEATS_LINE],
    };
    if !rules.is_on(stream) {
        return Err(Refusal::NotLegal);
    }
    Ok(rules)
}

// What a read says where the stream's own record is at hand: that record, or 12 line 0 or 9. A sheet's numbers are lent.
#[tactic(auto, using(crate::proofs::Laws::Checks::seen_refused))]
pub fn seen_lent(numbers: &[u32], own: Record, stream: u8) -> Result<Record, Refusal>
    ensures { seen≡ (sheet_in numbers.now) own stream result }
{
    let rules = admit(numbers, stream)?;
    if !rules.is_legal(stream, own) {
        return Err(Refusal::NotLegal);
    }
    Ok(own)
}

// A stream's own record of the eight; past the eighth a free one.
fn own_of(records: Streams, stream: u8) -> Record
    ensures { result ≡ own records stream }
{
    records
        .get(stream as usize)
        .copied()
        .unwrap_or(stream::free())
}

// The record of a stream, or 12 line 0 or 9, a sheet's numbers lent.
#[tactic(auto, unfolding(crate::specs::Steps::read_of))]
pub fn read_lent(numbers: &[u32], records: Streams, stream: u8) -> Result<Record, Refusal>
    ensures { read≡ (sheet_in numbers.now) records stream result }
{
    seen_lent(numbers, own_of(records, stream), stream)
}

// The same, the sheet by value.
#[tactic(auto, using(crate::proofs::Laws::Checks::lent_own))]
pub fn read(sheet: Sheet, records: Streams, stream: u8) -> Result<Record, Refusal>
    ensures { read≡ sheet records stream result }
{
    read_lent(&numbers_of(sheet), records, stream)
}

// What an event makes of the record that was seen: an attempt to store, or 12 line 0 or 9, a sheet's numbers lent.
#[tactic(auto, using(crate::proofs::Laws::Checks::attempt_refused), unfolding(crate::specs::Steps::work_of))]
pub fn work_out_lent(numbers: &[u32], seen: Record, event: Event) -> Result<Attempt, Refusal>
    ensures { work_out≡ (sheet_in numbers.now) seen event result }
{
    let Event { stream, what } = event;
    let rules = admit(numbers, stream)?;
    if !(rules.is_sender_on(what) && rules.is_legal(stream, seen)) {
        return Err(Refusal::NotLegal);
    }
    let change = rules.change_of(stream, seen, what);
    Ok(Attempt {
        stream,
        seen,
        wanted: change.becomes,
        answer: change.answer,
    })
}

// The same, the sheet by value.
#[tactic(auto, using(crate::proofs::Laws::Checks::lent_own))]
pub fn work_out(sheet: Sheet, seen: Record, event: Event) -> Result<Attempt, Refusal>
    ensures { work_out≡ sheet seen event result }
{
    work_out_lent(&numbers_of(sheet), seen, event)
}

// What a store says where the stream's own record is at hand: the attempt's answer, or 12 line 0, 9 or 10. A sheet's numbers are lent.
pub fn settle_lent(numbers: &[u32], attempt: Attempt, own: Record) -> Result<Answer, Refusal>
    ensures { settle≡ (sheet_in numbers.now) attempt own result }
{
    let Attempt {
        stream,
        seen,
        wanted,
        answer,
    } = attempt;
    let rules = admit(numbers, stream)?;
    let is_good = |x| rules.is_legal(stream, x);
    if !(is_good(own) && is_good(seen) && is_good(wanted)) {
        return Err(Refusal::NotLegal);
    }
    if own != seen {
        return Err(Refusal::Stale);
    }
    Ok(answer)
}

// Stores an attempt where the stream's own record is still the one seen. The records come back, changed in that place alone or as they
// were, with the answer, or 12 line 0, 9 or 10. A sheet's numbers are lent.
pub fn store_lent(numbers: &[u32], attempt: Attempt, records: Streams) -> Stored
    ensures { store≡ (sheet_in numbers.now) attempt records result }
{
    let Attempt { stream, wanted, .. } = attempt;
    let own = own_of(records, stream);
    let taking = settle_lent(numbers, attempt, own);
    let mut records = records;
    if taking.is_ok() {
        records[stream as usize] = wanted;
    }
    Stored { records, taking }
}

// The same, the sheet by value.
#[tactic(auto, using(crate::proofs::Laws::Checks::lent_own))]
pub fn store(sheet: Sheet, attempt: Attempt, records: Streams) -> Stored
    ensures { store≡ sheet attempt records result }
{
    store_lent(&numbers_of(sheet), attempt, records)
}

// C11, the number of seats that watch a stream whose own record is at hand, or 12 line 0 or 9. A sheet's numbers are lent.
#[tactic(auto, unfolding(crate::specs::Steps::counted))]
pub fn counted_lent(numbers: &[u32], own: Record, stream: u8) -> Result<u32, Refusal>
    ensures { counted≡ (sheet_in numbers.now) own stream result }
{
    seen_lent(numbers, own, stream).map(stream::count_of)
}

// The same of one of eight records.
#[tactic(auto, unfolding(crate::specs::Steps::count_of))]
pub fn count_lent(numbers: &[u32], records: Streams, stream: u8) -> Result<u32, Refusal>
    ensures { count≡ (sheet_in numbers.now) records stream result }
{
    counted_lent(numbers, own_of(records, stream), stream)
}

// The same, the sheet by value.
#[tactic(auto, using(crate::proofs::Laws::Checks::lent_own))]
pub fn count(sheet: Sheet, records: Streams, stream: u8) -> Result<u32, Refusal>
    ensures { count≡ sheet records stream result }
{
    count_lent(&numbers_of(sheet), records, stream)
}
