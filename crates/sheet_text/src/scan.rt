// The reader's one pass over a text: line after line, each judged against the lines before it (document 01, "Call sheet").
ghost use Rattle.std.specs.Prelude.{◌≡◌, ◌<◌, []};
ghost use Rattle.sheet.specs.Value.{sheet_from, users_of};
ghost use Rattle.sheet_text.specs.Inner.{JudgedIs, ScanIs};

use super::Reading;
use seats::find::is_new_name;
use sheet::number::is_good_number;
use sheet::numbers::{
    ACK, END_REQUEST, END_RESPONSE, LIMIT, LINES, NUMBER_LINES, Numbers, REQUEST, RESPONSE,
    RESULT_ID, SEATS_LINE, SERVER, TX_END, TX_END_RESPONSE,
};
use sheet::{Refusal, SEATS, Sheet, Users};
use sheet_line::{Line, line_at};

// The line at a place as line k, judged against the numbers and the User IDs of the lines before it; a bad or missing one is named. (Inlined, as `line_at` is.)
#[inline(always)]
fn judged(
    text: &[u8],
    at: usize,
    k: usize,
    numbers: &Numbers,
    users: &Users,
) -> Result<Line, Refusal>
    requires { k < 19 }
    ensures { JudgedIs text.now at k numbers.now users.now result }
{
    let bad = Refusal::Sheet(k as u16 + 1);
    let line = line_at(text, at, k).ok_or(bad)?;
    if !is_good_number(&numbers[..k], line.number) {
        return Err(bad);
    }
    if k < NUMBER_LINES {
        return Ok(line);
    }
    let name = &text[line.name..line.end];
    is_new_name((k - NUMBER_LINES) as u32, users, name)
        .then_some(line)
        .ok_or(bad)
}

// The sheet with these numbers in the order of its lines, and the SSRCs behind them. (No `From`, for the reason of `sheet::numbers::numbers_of`.)
fn sheet_of(numbers: &Numbers) -> Sheet
    ensures { result ≡ sheet_from numbers.now }
{
    let mut ssrcs = [0; SEATS];
    ssrcs.copy_from_slice(&numbers[NUMBER_LINES..]);
    Sheet {
        server: numbers[SERVER],
        limit: numbers[LIMIT],
        request: numbers[REQUEST],
        response: numbers[RESPONSE],
        endrequest: numbers[END_REQUEST],
        endresponse: numbers[END_RESPONSE],
        txend: numbers[TX_END],
        txendresponse: numbers[TX_END_RESPONSE],
        ack: numbers[ACK],
        resultid: numbers[RESULT_ID],
        seats: numbers[SEATS_LINE],
        ssrcs,
    }
}

// Reads the sheet at the front of a text, and puts its User IDs into users, whose octets are all zero before.
pub fn scan(text: &[u8], users: &mut Users) -> Result<Reading, Refusal>
    requires { users.old ≡ users_of [] }
    ensures { ScanIs text.now result users.new }
{
    let mut numbers = [0; LINES];
    let mut at = 0;
    for k in 0..NUMBER_LINES {
        let line = judged(text, at, k, &numbers, users)?;
        numbers[k] = line.number as u32;
        at = line.end + 1;
    }
    for s in 0..numbers[SEATS_LINE] as usize {
        let k = NUMBER_LINES + s;
        let line = judged(text, at, k, &numbers, users)?;
        numbers[k] = line.number as u32;
        octets::put_octets(&mut users[s][..], 0, &text[line.name..line.end]);
        at = line.end + 1;
    }
    Ok(Reading {
        sheet: sheet_of(&numbers),
        used: at,
    })
}
