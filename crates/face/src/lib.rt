// The controller's calls for a host written in C, on numbers and octets (document 01: "also called from a bench host written in C, on numbers and octets,
// with the same answers"). Each returns 0, or a refusal's number plus 256 times its line; include/coyametzi.h says what each row holds.
#![tactic(auto)]

mod told;

ghost use Rattle.std.specs.Prelude.{◌≡◌, ◌+◌, ◌<◌, ◌≤◌, ◌^◌, ltb, leb};
ghost use Rattle.octets.specs.Choice.{pick};
ghost use Rattle.reception.specs.Steps.{gives, check};
ghost use Rattle.rows.specs.Rows.{field_row};
ghost use Rattle.rows.specs.Lent.{told};
ghost use Rattle.rows.specs.Promises.{Put};
ghost use Rattle.face.specs.Promises.{mcv_sheet≡, mcv_read≡, mcv_write≡, mcv_field≡, mcv_event≡, mcv_seen≡, mcv_work_out≡, mcv_store≡, mcv_count≡, mcv_packet≡};
ghost use Rattle.face.specs.Inner.{StreamIn};

use fields::field::Field;
use packet::row::{NONE, row_of};
use rows::answer::ANSWER;
use rows::attempt::{GIVEN, attempt_in, put_attempt};
use rows::event::{event_in, put_event};
use rows::records::{are_records, put_at, put_record, record_at, record_in};
use rows::{put, put_number};
use sheet::numbers::numbers_of;
use sheet::{Refusal, SEATS, Users, WIDTH};
use told::{code, misfit};

// How much of a buffer may be written into where so many numbers are lent for the count: nothing where there are none, as 11 is given then.
fn room_of(out: usize, written: usize) -> usize
    ensures { (result ≡ pick (leb 1 written) out 0) × (result ≤ out) }
{
    if written == 0 { 0 } else { out }
}

// ---- the sheet

fn read_sheet(
    text: &[u8],
    sheet: &mut [u32],
    users: &mut Users,
    used: &mut [u32],
) -> Result<(), Refusal>
    ensures { mcv_sheet≡ text.now sheet.old users.old used.old (told result) sheet.new users.new used.new }
{
    let mut named = [[0u8; WIDTH]; SEATS];
    let reading = sheet_text::read_with(text, &mut named)?;
    if used.is_empty() {
        return Err(Refusal::NoRoom);
    }
    put(sheet, &numbers_of(reading.sheet))?;
    *users = named;
    put_number(used, reading.used as u32)
}

// Reads a sheet: its numbers, its User IDs and the octets used, or 12 with its line, or 11.
#[unsafe(no_mangle)]
pub extern "C" fn mcv_sheet(
    text: &[u8],
    sheet: &mut [u32],
    users: &mut Users,
    used: &mut [u32],
) -> u32
    ensures { mcv_sheet≡ text.now sheet.old users.old used.old result sheet.new users.new used.new }
{
    code(read_sheet(text, sheet, users, used))
}

// ---- packets

fn read(sheet: &[u32], packet: &[u8], message: &mut [u32]) -> Result<(), Refusal>
    ensures { mcv_read≡ sheet.now packet.now message.old (told result) message.new }
{
    let read = packet::read_lent(sheet, packet)?;
    put(message, &row_of(read))
}

// Reads a packet: the message's row, or 12 line 0, 1 to 5 or 11.
#[unsafe(no_mangle)]
pub extern "C" fn mcv_read(sheet: &[u32], packet: &[u8], message: &mut [u32]) -> u32
    ensures { mcv_read≡ sheet.now packet.now message.old result message.new }
{
    code(read(sheet, packet, message))
}

fn write(
    sheet: &[u32],
    message: &[u32],
    names: &[u8],
    out: &mut [u8],
    written: &mut [u32],
) -> Result<(), Refusal>
    ensures { mcv_write≡ sheet.now message.now names.now out.old written.old (told result) out.new written.new }
{
    let room = room_of(out.len(), written.len());
    let octets = writing::write_lent(sheet, message, names, &mut out[..room])?;
    put_number(written, octets)
}

// Writes the message of a row: the packet and how many octets, or 12 line 0, 5 or 11.
#[unsafe(no_mangle)]
pub extern "C" fn mcv_write(
    sheet: &[u32],
    message: &[u32],
    names: &[u8],
    out: &mut [u8],
    written: &mut [u32],
) -> u32
    ensures { mcv_write≡ sheet.now message.now names.now out.old written.old result out.new written.new }
{
    code(write(sheet, message, names, out, written))
}

// Puts a field's row into the front of a slice, or 4 where its next place is no 32-bit number, or 11.
fn put_field(out: &mut [u32], field: Field) -> Result<(), Refusal>
    requires { (field.at + 2 ≤ field.next) × (field.len < 256) }
    ensures { Put (check (ltb field.next (2 ^ 32)) 4 (gives (field_row field))) out.old result out.new }
{
    let Ok(next) = u32::try_from(field.next) else {
        return Err(Refusal::Layout);
    };
    put(
        out,
        &[
            u32::from(field.id),
            (field.at + 2) as u32,
            field.len as u32,
            next,
        ],
    )
}

fn field_at(packet: &[u8], place: u32, field: &mut [u32]) -> Result<(), Refusal>
    ensures { mcv_field≡ packet.now place field.old (told result) field.new }
{
    match fields::field::field_at(packet, place as usize)? {
        Some(found) => put_field(field, found),
        None => put(field, &[NONE, place, 0, place]),
    }
}

// The field at a place of any octets: its row, or the end's, or 4 or 11.
#[unsafe(no_mangle)]
pub extern "C" fn mcv_field(packet: &[u8], place: u32, field: &mut [u32]) -> u32
    ensures { mcv_field≡ packet.now place field.old result field.new }
{
    code(field_at(packet, place, field))
}

// ---- streams

fn event_of(sheet: &[u32], users: &Users, packet: &[u8], event: &mut [u32]) -> Result<(), Refusal>
    ensures { mcv_event≡ sheet.now users.now packet.now event.old (told result) event.new }
{
    let made = incoming::event_lent(sheet, users, packet)?;
    put_event(event, made)
}

// The event that a packet makes: its row, or 12 line 0, 1 to 5, 8, 6, 7 or 11.
#[unsafe(no_mangle)]
pub extern "C" fn mcv_event(sheet: &[u32], users: &Users, packet: &[u8], event: &mut [u32]) -> u32
    ensures { mcv_event≡ sheet.now users.now packet.now event.old result event.new }
{
    code(event_of(sheet, users, packet, event))
}

// A stream's number as an octet, if these are eight records and it fits one.
fn stream_in(sheet: &[u32], records: &[u8], stream: u32) -> Result<u8, Refusal>
    ensures { StreamIn sheet.now records.now stream result }
{
    match u8::try_from(stream) {
        Ok(stream) if are_records(records) => Ok(stream),
        _ => Err(misfit(sheet)),
    }
}

fn seen_of(sheet: &[u32], records: &[u8], stream: u32, seen: &mut [u8]) -> Result<(), Refusal>
    ensures { mcv_seen≡ sheet.now records.now stream seen.old (told result) seen.new }
{
    let stream = stream_in(sheet, records, stream)?;
    let own = reception::seen_lent(sheet, record_at(records, stream), stream)?;
    put_record(seen, own)
}

// A stream's record, or 12 line 0, 9 or 11.
#[unsafe(no_mangle)]
pub extern "C" fn mcv_seen(sheet: &[u32], records: &[u8], stream: u32, seen: &mut [u8]) -> u32
    ensures { mcv_seen≡ sheet.now records.now stream seen.old result seen.new }
{
    code(seen_of(sheet, records, stream, seen))
}

fn count_of(sheet: &[u32], records: &[u8], stream: u32, count: &mut [u32]) -> Result<(), Refusal>
    ensures { mcv_count≡ sheet.now records.now stream count.old (told result) count.new }
{
    let stream = stream_in(sheet, records, stream)?;
    let number = reception::counted_lent(sheet, record_at(records, stream), stream)?;
    put_number(count, number)
}

// C11 of a stream, or 12 line 0, 9 or 11.
#[unsafe(no_mangle)]
pub extern "C" fn mcv_count(sheet: &[u32], records: &[u8], stream: u32, count: &mut [u32]) -> u32
    ensures { mcv_count≡ sheet.now records.now stream count.old result count.new }
{
    code(count_of(sheet, records, stream, count))
}

fn work_out(sheet: &[u32], seen: &[u8], event: &[u32], attempt: &mut [u32]) -> Result<(), Refusal>
    ensures { mcv_work_out≡ sheet.now seen.now event.now attempt.old (told result) attempt.new }
{
    let Some(own) = record_in(seen) else {
        return Err(misfit(sheet));
    };
    let Some(given) = event_in(event) else {
        return Err(misfit(sheet));
    };
    let worked = reception::work_out_lent(sheet, own, given)?;
    put_attempt(attempt, worked)
}

// What the event of a row makes of a record: the attempt's row, or 12 line 0, 9 or 11.
#[unsafe(no_mangle)]
pub extern "C" fn mcv_work_out(
    sheet: &[u32],
    seen: &[u8],
    event: &[u32],
    attempt: &mut [u32],
) -> u32
    ensures { mcv_work_out≡ sheet.now seen.now event.now attempt.old result attempt.new }
{
    code(work_out(sheet, seen, event, attempt))
}

// Of the records, the stream's own two octets alone are written, and after the answer's row.
fn store(
    sheet: &[u32],
    attempt: &[u32],
    records: &mut [u8],
    answer: &mut [u32],
) -> Result<(), Refusal>
    ensures { mcv_store≡ sheet.now attempt.now records.old answer.old (told result) records.new answer.new }
{
    if !are_records(records) {
        return Err(misfit(sheet));
    }
    let Some(given) = attempt_in(attempt) else {
        return Err(misfit(sheet));
    };
    let stream = given.stream;
    let wanted = given.wanted;
    reception::settle_lent(sheet, given, record_at(records, stream))?;
    // The length is written out: a copy of a fixed length takes less time.
    put(answer, &attempt[GIVEN..GIVEN + ANSWER])?;
    put_at(records, stream, wanted);
    Ok(())
}

// Stores the attempt of a row: the records in place and the answer's row, or 12 line 0, 9, 10 or 11.
#[unsafe(no_mangle)]
pub extern "C" fn mcv_store(
    sheet: &[u32],
    attempt: &[u32],
    records: &mut [u8],
    answer: &mut [u32],
) -> u32
    ensures { mcv_store≡ sheet.now attempt.now records.old answer.old result records.new answer.new }
{
    code(store(sheet, attempt, records, answer))
}

fn packet_of(
    sheet: &[u32],
    users: &Users,
    stream: u32,
    answer: &[u32],
    out: &mut [u8],
    written: &mut [u32],
) -> Result<(), Refusal>
    ensures { mcv_packet≡ sheet.now users.now stream answer.now out.old written.old (told result) out.new written.new }
{
    let room = room_of(out.len(), written.len());
    let octets = outgoing::packet_lent(sheet, users, stream, answer, &mut out[..room])?;
    put_number(written, octets)
}

// Writes the packet that the answer of a row sends on a stream: the packet and how many octets, none where it sends none, or 12 line 0, 9 or 11.
#[unsafe(no_mangle)]
pub extern "C" fn mcv_packet(
    sheet: &[u32],
    users: &Users,
    stream: u32,
    answer: &[u32],
    out: &mut [u8],
    written: &mut [u32],
) -> u32
    ensures { mcv_packet≡ sheet.now users.now stream answer.now out.old written.old result out.new written.new }
{
    code(packet_of(sheet, users, stream, answer, out, written))
}
