// An answer as a row of numbers: its number, the kind of the message to send or 0, Result and cause, timers to stop, timers to start. Numbers, as they are what C
// lends and is lent.
ghost use Rattle.std.specs.Prelude.{◌≡◌};
ghost use Rattle.rows.specs.Promises.{row_of≡, answer_in≡, is_answer≡};
ghost use Rattle.rows.specs.Inner.{likely_answer, likely_grant, likely_end, likely_freed, likely_release};

use super::is_row;
use packet::row::NONE;
use reception::Answer;

// How many numbers an answer's row has.
pub const ANSWER: usize = 6;

// Where in it the kind of the message to send stands, its Result and its cause.
pub const SENDS: usize = 1;

pub const RESULT: usize = 2;

pub const CAUSE: usize = 3;

// A number of 16 bits is less.
const NUMBER_END: u32 = 65536;

// The timers, as they are summed.
const T3: u32 = 1;

const T5: u32 = 2;

const T6: u32 = 4;

const T11: u32 = 8;

// ---- an answer as a row

// The row of an answer, which stands for it.
pub fn row_of(answer: Answer) -> [u32; ANSWER]
    ensures { row_of≡ answer result }
{
    match answer {
        Answer::GrantedFirst => [1, 2, 1, NONE, T5 + T11, T6],
        Answer::Granted => [1, 2, 1, NONE, T5, T6],
        Answer::GrantedAgain => [1, 2, 1, NONE, 0, 0],
        Answer::Rejected(cause) => [2, 2, 0, u32::from(cause), 0, 0],
        Answer::Ended => [3, 4, NONE, NONE, 0, 0],
        Answer::EndedLast => [3, 4, NONE, NONE, 0, T11],
        Answer::Opened => [6, 0, NONE, NONE, 0, T11],
        Answer::EndRequested(cause) => [4, 5, NONE, u32::from(cause), 0, T3],
        Answer::Freed => [5, 0, NONE, NONE, T3, 0],
        Answer::FreedWithAck => [5, 7, NONE, NONE, T3, 0],
        Answer::ReleasedIdle => [7, 0, NONE, NONE, T11, 0],
        Answer::ReleasedWatched => [7, 0, NONE, NONE, 0, 0],
        Answer::ReleasedEnding => [7, 0, NONE, NONE, T3, 0],
        Answer::Discarded => [8, 0, NONE, NONE, 0, 0],
    }
}

// ---- a row as an answer: the likely one by some of its numbers, if all of them are that answer's

fn granted(stops: u32) -> Answer
    ensures { result ≡ likely_grant stops }
{
    match stops {
        10 => Answer::GrantedFirst,
        2 => Answer::Granted,
        _ => Answer::GrantedAgain,
    }
}

fn ended(starts: u32) -> Answer
    ensures { result ≡ likely_end starts }
{
    if starts == 0 {
        Answer::Ended
    } else {
        Answer::EndedLast
    }
}

fn freed(kind: u32) -> Answer
    ensures { result ≡ likely_freed kind }
{
    if kind == 0 {
        Answer::Freed
    } else {
        Answer::FreedWithAck
    }
}

fn released(stops: u32) -> Answer
    ensures { result ≡ likely_release stops }
{
    match stops {
        8 => Answer::ReleasedIdle,
        1 => Answer::ReleasedEnding,
        _ => Answer::ReleasedWatched,
    }
}

fn likely(done: u32, kind: u32, cause: u16, stops: u32, starts: u32) -> Answer
    ensures { result ≡ likely_answer done kind cause stops starts }
{
    match done {
        1 => granted(stops),
        2 => Answer::Rejected(cause),
        3 => ended(starts),
        4 => Answer::EndRequested(cause),
        5 => freed(kind),
        6 => Answer::Opened,
        7 => released(stops),
        _ => Answer::Discarded,
    }
}

// The answer that a row stands for.
#[tactic(auto, using(crate::proofs::Laws::Answers::answer_uncounted))]
pub fn answer_in(row: &[u32]) -> Option<Answer>
    ensures { answer_in≡ row.now result }
{
    let [done, kind, _, cause, stops, starts] = *row else {
        return None;
    };
    let answer = likely(done, kind, (cause % NUMBER_END) as u16, stops, starts);
    if is_row(row, &row_of(answer)) {
        Some(answer)
    } else {
        None
    }
}

// Whether a row stands for an answer.
pub fn is_answer(row: &[u32]) -> bool
    ensures { is_answer≡ row.now result }
{
    answer_in(row).is_some()
}
