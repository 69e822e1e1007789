// Which packet an answer sends (document 01, "Stream record").
#![tactic(auto)]

mod answer;

ghost use Rattle.sheet.specs.Value.{sheet_in};
ghost use Rattle.outgoing.specs.Promises.{packet_lent≡, packet_of≡};

use reception::Answer;
use rows::answer::{ANSWER, is_answer, row_of};
use seats::are_valid_with;
use sheet::numbers::{SEATS_LINE, numbers_of};
use sheet::{Refusal, Sheet, Users};

// Writes the packet that the answer of a row (`rows::answer`) on a stream sends into the front of `out`, a sheet's numbers and the User IDs lent: how many
// octets, none where it sends none; or 12 line 0, 9 or 11, checked in that order.
pub fn packet_lent(
    numbers: &[u32],
    users: &Users,
    stream: u32,
    answer: &[u32],
    out: &mut [u8],
) -> Result<u32, Refusal>
    ensures { packet_lent≡ (sheet_in numbers.now) users.now stream answer.now out.old result out.new }
{
    if !are_valid_with(numbers, users) {
        return Err(Refusal::Sheet(0));
    }
    if numbers[SEATS_LINE] <= stream {
        return Err(Refusal::NotLegal);
    }
    let Ok(answer) = <&[u32; ANSWER]>::try_from(answer) else {
        return Err(Refusal::NotLegal);
    };
    if !is_answer(answer) {
        return Err(Refusal::NotLegal);
    }
    answer::send(numbers, &users[stream as usize], answer, out)
}

// The same, sheet, User IDs and answer by value, as document 01 hands them over; C lends rows. A trait over both forms would be longer than this one call.
pub fn packet_of(
    sheet: Sheet,
    users: Users,
    stream: u8,
    answer: Answer,
    out: &mut [u8],
) -> Result<u32, Refusal>
    ensures { packet_of≡ sheet users stream answer out.old result out.new }
{
    packet_lent(
        &numbers_of(sheet),
        &users,
        u32::from(stream),
        &row_of(answer),
        out,
    )
}
