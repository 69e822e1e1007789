// A reader that remembers its packet and its place, and hands out one field at a time (document 01, "Packet").
#![tactic(auto)]

ghost use Rattle.std.specs.Prelude.{◌≡◌};
ghost use Rattle.fields.specs.Walk.{step_said};
ghost use Rattle.field_reader.specs.Reader.{moved_to};
ghost use Rattle.field_reader.specs.Promises.{reader_at≡, next_field≡, field_in≡};

use fields::field::{Field, field_at};
use fields::header::check;
use sheet::Refusal;

// A packet and a place in it. Only this crate makes one, or moves it.
#[derive(Clone, Copy)]
pub struct FieldReader<'a> {
    packet: &'a [u8],
    at: usize,
}

// A reader; or, beside 1 or 2, a reader at octet 0, which hands out nothing. No Result: theorem NothingBeside speaks of the reader beside a refusal.
#[derive(Clone, Copy)]
pub struct Made<'a> {
    pub reader: FieldReader<'a>,
    pub refusal: Option<Refusal>,
}

// What a step said, and the reader after it, which there is beside a refusal too. (No `&mut` reader: theorem StepsAsTheWalk speaks of the reader before and after.)
#[derive(Clone, Copy)]
pub struct Handed<'a> {
    pub reader: FieldReader<'a>,
    pub said: Result<Option<Field>, Refusal>,
}

// Makes a reader at a place of a packet, only after checks 1 and 2; else gives 1 or 2.
pub fn reader_at<'a>(packet: &'a [u8], at: usize) -> Made<'a>
    ensures { reader_at≡ packet.entry at result }
{
    match check(packet) {
        Ok(()) => Made {
            reader: FieldReader { packet, at },
            refusal: None,
        },
        Err(refusal) => Made {
            reader: FieldReader { packet, at: 0 },
            refusal: Some(refusal),
        },
    }
}

// The place past a field that a step handed out; at the end and at a refusal, the place itself.
fn past(said: Result<Option<Field>, Refusal>, at: usize) -> usize
    ensures { result ≡ moved_to (step_said said) at }
{
    match said {
        Ok(Some(field)) => field.next,
        Ok(None) => at,
        Err(_) => at,
    }
}

// Hands out the field at the reader's place and the reader moved past it; at the end says so and stays; else refuses with 4 and stays.
pub fn next_field<'a>(reader: FieldReader<'a>) -> Handed<'a>
    ensures { next_field≡ reader.entry result }
{
    let said = field_at(reader.packet, reader.at);
    Handed {
        reader: FieldReader {
            packet: reader.packet,
            at: past(said, reader.at),
        },
        said,
    }
}

// Makes a reader at a place of a packet and steps once: the field, the end, or 1, 2 or 4.
pub fn field_in(packet: &[u8], at: usize) -> Result<Option<Field>, Refusal>
    ensures { field_in≡ packet.now at result }
{
    let made = reader_at(packet, at);
    match made.refusal {
        Some(refusal) => Err(refusal),
        None => next_field(made.reader).said,
    }
}
