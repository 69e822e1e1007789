// Events, answers, attempts and stream records as rows of numbers and octets that a host written in C lends, and back (document 01: "on numbers and
// octets, with the same answers"). include/coyametzi.h says what each row holds. What is handed in stands for the value whose row it is, or for none.
#![tactic(auto)]

pub mod answer;
pub mod attempt;
pub mod event;
mod record;
pub mod records;

ghost use Rattle.std.specs.Prelude.{◌≡◌, Decides};
ghost use Rattle.rows.specs.Promises.{put≡, put_number≡};

use sheet::Refusal;

// Puts a row into the front of a slice, or 11 where it is too short.
pub fn put(out: &mut [u32], row: &[u32]) -> Result<(), Refusal>
    ensures { put≡ out.old row.now result out.new }
{
    if out.len() < row.len() {
        return Err(Refusal::NoRoom);
    }
    out[..row.len()].copy_from_slice(row);
    Ok(())
}

// Puts one number into the front of a slice, or 11 where it has no room.
pub fn put_number(out: &mut [u32], n: u32) -> Result<(), Refusal>
    ensures { put_number≡ out.old n result out.new }
{
    put(out, &[n])
}

// Whether a row is these numbers. `==` of slices was tried: mcv_work_out and mcv_store take longer with it.
fn is_row<const N: usize>(row: &[u32], numbers: &[u32; N]) -> bool
    ensures { Decides result (row.now ≡ numbers.now) }
{
    row.len() == N && row.iter().zip(numbers).all(|(x, y)| x == y)
}
