// A message written as an RTCP APP packet of MCVideo (document 01, "Packet"; RFC 3550, 6.7).
#![tactic(auto)]

mod field_writer;
mod front;

ghost use Rattle.std.specs.Prelude.{T};
ghost use Rattle.sheet.specs.Value.{sheet_in};
ghost use Rattle.plan.specs.Plan.{plan_right};
ghost use Rattle.writing.specs.Inner.{PlanWritten};
ghost use Rattle.writing.specs.Promises.{write_by≡, write_lent≡, write≡};

use fields::codes::FIRST_FIELD;
use packet::Message;
use plan::sizes::size_of;
use plan::{Plan, plan_of};
use sheet::numbers::{LINES, are_valid};
use sheet::{Refusal, Sheet};

// Writes what was planned, or 11. The room is checked before the first store.
#[tactic(auto, using(crate::proofs::Laws::Room::no_room), unfolding(crate::specs::Writing::told, crate::specs::Writing::after))]
fn write_plan(plan: Plan, names: &[u8], out: &mut [u8]) -> Result<u32, Refusal>
    requires { T (plan_right names.now plan) }
    ensures { PlanWritten names.now plan out.old result out.new }
{
    let size = FIRST_FIELD + size_of(plan);
    if out.len() < size {
        return Err(Refusal::NoRoom);
    }
    front::put_header(out, plan, size);
    field_writer::put_fields(&mut out[FIRST_FIELD..], plan, names);
    Ok(size as u32)
}

// Writes the message of a row (`packet::row`) under these numbers: how many octets, or 12 line 0 where they go into no packet, 5 or 11, checked in that
// order. Whether a sheet has them is not asked.
#[tactic(auto, using(crate::proofs::Laws::Planned::answers))]
pub fn write_by(
    numbers: &[u32],
    message: &[u32],
    names: &[u8],
    out: &mut [u8],
) -> Result<u32, Refusal>
    ensures { write_by≡ numbers.now message.now names.now out.old result out.new }
{
    let plan = plan_of(numbers, message, names)?;
    write_plan(plan, names, out)
}

// Writes the message of a row, whose names lie in `names`, into the front of `out`, a sheet's numbers lent: how many octets, or 12 line 0, 5 or 11, checked
// in that order.
pub fn write_lent(
    numbers: &[u32],
    message: &[u32],
    names: &[u8],
    out: &mut [u8],
) -> Result<u32, Refusal>
    ensures { write_lent≡ (sheet_in numbers.now) message.now names.now out.old result out.new }
{
    if !are_valid(numbers) {
        return Err(Refusal::Sheet(0));
    }
    // The length is written out, as the other caller does: so it is not handed over, which takes stack.
    write_by(&numbers[..LINES], message, names, out)
}

// The same, sheet and message by value. A trait over both forms would be longer than these three lines.
pub fn write(sheet: Sheet, message: Message, names: &[u8], out: &mut [u8]) -> Result<u32, Refusal>
    ensures { write≡ sheet message names.now out.old result out.new }
{
    let numbers = sheet::numbers::numbers_of(sheet);
    let row = packet::row::row_of(message);
    write_lent(&numbers, &row, names, out)
}
