// The fields of a packet, put into the part of a buffer that starts at octet 12 (document 01, "Packet").
ghost use Rattle.std.specs.Prelude.{◌≡◌, ◌+◌, ◌≤◌, T, length};
ghost use Rattle.octets.specs.Buffer.{over, put_at};
ghost use Rattle.fields.specs.Layout.{laid};
ghost use Rattle.plan.specs.Plan.{user_content, field_size, part_octets, part_right, part_size, plan_octets, plan_right, plan_size};

use fields::walk::size_of;
use plan::{Part, Plan};

// The ID octet of a User ID.
const USER_ID: u8 = kinds::codes::USER_ID as u8;

// Puts a User ID's field, its last word zeroed first so that the padding is zero, and gives the place past it. (A buffer and a place, here and below: with the rest of
// the buffer handed on the definition, `put_at` of the place, would have to be put together again.)
fn put_user(s: &mut [u8], at: usize, user: &[u8]) -> usize
    requires { (length user.now ≤ 60) × (at + field_size (length user.now) ≤ length s.old) }
    ensures { (s.new ≡ put_at s.old at (laid (user_content user.now))) × (result ≡ at + field_size (length user.now)) }
{
    let size = size_of(user.len() as u32);
    octets::put_u32(s, at + size - 4, 0);
    s[at] = USER_ID;
    s[at + 1] = user.len() as u8;
    octets::put_octets(s, at + 2, user);
    at + size
}

// Puts a field, and gives the place past it.
#[tactic(auto, using(crate::proofs::Laws::Parts::puts))]
fn put_part(s: &mut [u8], at: usize, part: Part, names: &[u8]) -> usize
    requires { T (part_right names.now part) × (at + part_size part ≤ length s.old) }
    ensures { (s.new ≡ put_at s.old at (part_octets names.now part)) × (result ≡ at + part_size part) }
{
    match part {
        Part::Absent => at,
        Part::Word(word) => {
            octets::put_u32(s, at, word);
            at + 4
        }
        Part::Named(name) => {
            let from = name.at as usize;
            put_user(s, at, &names[from..from + (name.len as usize)])
        }
    }
}

// Puts the fields, one after another.
pub fn put_fields(s: &mut [u8], plan: Plan, names: &[u8])
    requires { T (plan_right names.now plan) × (plan_size plan ≤ length s.old) }
    ensures { s.new ≡ over (plan_octets names.now plan) s.old }
{
    let mut at = 0;
    for part in &plan.parts {
        at = put_part(s, at, *part, names);
    }
}
