// How many octets the fields to be written take (document 01, "Packet").
ghost use Rattle.std.specs.Prelude.{◌≡◌, ◌≤◌};
ghost use Rattle.plan.specs.Plan.{part_size};
ghost use Rattle.plan.specs.Inner.{size_bound};
ghost use Rattle.plan.specs.Promises.{size_of≡};

use super::{Part, Plan};
use fields::walk;

// How many octets a field takes.
fn part_size(part: Part) -> usize
    ensures { (result ≡ part_size part) × (result ≤ size_bound) }
{
    match part {
        Part::Absent => 0,
        Part::Word(_) => 4,
        Part::Named(name) => walk::size_of(name.len),
    }
}

// How many octets the fields take.
pub fn size_of(plan: Plan) -> usize
    ensures { size_of≡ plan result }
{
    let mut size = 0;
    for part in &plan.parts {
        size += part_size(*part);
    }
    size
}
