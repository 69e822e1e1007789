// An attempt as a row of numbers: stream, seen phase and receivers, wanted phase and receivers, then the answer.
ghost use Rattle.rows.specs.Promises.{put_attempt≡, attempt_in≡};

use super::answer::{answer_in, row_of};
use super::put;
use super::record::record_in;
use reception::Attempt;
use sheet::Refusal;

// Where in an attempt's row the answer begins.
pub const GIVEN: usize = 5;

// ---- an attempt as a row

// Puts an attempt's row into the front of a slice, or 11.
pub fn put_attempt(out: &mut [u32], attempt: Attempt) -> Result<(), Refusal>
    ensures { put_attempt≡ out.old attempt result out.new }
{
    let seen = attempt.seen;
    let wanted = attempt.wanted;
    let [done, kind, res, cause, stops, starts] = row_of(attempt.answer);
    put(
        out,
        &[
            u32::from(attempt.stream),
            u32::from(u8::from(seen.phase)),
            u32::from(seen.receivers),
            u32::from(u8::from(wanted.phase)),
            u32::from(wanted.receivers),
            done,
            kind,
            res,
            cause,
            stops,
            starts,
        ],
    )
}

// ---- a row as an attempt

// The attempt that a row stands for, if it stands for one with a seat and receivers that fit an octet.
pub fn attempt_in(row: &[u32]) -> Option<Attempt>
    ensures { attempt_in≡ row.now result }
{
    let [stream, seen, before, wanted, after, _, _, _, _, _, _] = row else {
        return None;
    };
    Some(Attempt {
        stream: u8::try_from(*stream).ok()?,
        seen: record_in(*seen, *before)?,
        wanted: record_in(*wanted, *after)?,
        answer: answer_in(&row[GIVEN..])?,
    })
}
