// A sheet's numbers in the order of its lines (document 01, "Call sheet"), the eight SSRCs behind them. A host lends a call these; a call
// that is given the struct lays them out once.
ghost use Rattle.sheet.specs.Promises.{numbers_of≡, are_valid≡};

use super::line::{are_apart, are_within};
use super::{SEATS, Sheet};

// How many lines have a number alone. The lines of the seats, with the SSRCs, stand behind theirs.
pub const NUMBER_LINES: usize = 11;

// How many lines the longest sheet has.
pub const LINES: usize = NUMBER_LINES + SEATS;

pub type Numbers = [u32; LINES];

// The lines of the server's SSRC, of the limit, of the messages' numbers and of the Result's ID, counted from 0.
pub const SERVER: usize = 0;

pub const LIMIT: usize = SERVER + 1;

pub const REQUEST: usize = LIMIT + 1;

pub const RESPONSE: usize = REQUEST + 1;

pub const END_REQUEST: usize = RESPONSE + 1;

pub const END_RESPONSE: usize = END_REQUEST + 1;

pub const TX_END: usize = END_RESPONSE + 1;

pub const TX_END_RESPONSE: usize = TX_END + 1;

pub const ACK: usize = TX_END_RESPONSE + 1;

pub const RESULT_ID: usize = ACK + 1;

// The last of the lines with a number alone, which says how many seats follow.
pub const SEATS_LINE: usize = NUMBER_LINES - 1;

// Whether there are as many as a sheet has, and some sheet reads to the struct with them.
pub fn are_valid(numbers: &[u32]) -> bool
    ensures { are_valid≡ numbers.now result }
{
    let Ok(numbers) = <&Numbers>::try_from(numbers) else {
        return false;
    };
    let lines = NUMBER_LINES + numbers[SEATS_LINE] as usize;
    // The five of MCV2, and the seats. Of the other lines each is the first of its family: to look at them as well takes a call four times as long.
    are_within(numbers)
        && are_apart(numbers, lines, END_REQUEST..ACK + 1)
        && are_apart(numbers, lines, NUMBER_LINES..LINES)
}

// The numbers of a sheet. (No `From`: `Numbers` is another name of an array, and `<[u32; LINES]>::from(sheet)` does not say which numbers.)
pub fn numbers_of(sheet: Sheet) -> Numbers
    ensures { numbers_of≡ sheet result }
{
    let mut numbers = [0; LINES];
    numbers[..NUMBER_LINES].copy_from_slice(&[
        sheet.server,
        sheet.limit,
        sheet.request,
        sheet.response,
        sheet.endrequest,
        sheet.endresponse,
        sheet.txend,
        sheet.txendresponse,
        sheet.ack,
        sheet.resultid,
        sheet.seats,
    ]);
    numbers[NUMBER_LINES..].copy_from_slice(&sheet.ssrcs);
    numbers
}
