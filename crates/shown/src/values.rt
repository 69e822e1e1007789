// The ten values of a message, and their text (document 01, "Bench program").
ghost use Rattle.std.specs.Prelude.{◌≡◌, ◌+◌, ◌≤◌, ◌<◌, [], map, length, get_or, take, drop};
ghost use Rattle.shown.specs.Line.{value_text, labels};
ghost use Rattle.shown.specs.Inner.{value_said, row_ten, number_held, name_held, entry_text, values_from};
ghost use Rattle.shown.specs.Promises.{Put};

use super::decimal;
use packet::row::{NONE, NUMBERS};
use packet::{Name, row};

// A value of a message: nothing, a number, or a name by its place in the packet and its length. (An Option of the other two would be one level more at each match.)
#[derive(Clone, Copy)]
pub enum Value {
    Absent,
    Given(u32),
    Named(Name),
}

// How many values a message has.
const TEN: usize = 10;

pub type Values = [Value; TEN];

// A number of a row.
fn number(n: u32) -> Value
    ensures { value_said result ≡ number_held n }
{
    if n == NONE {
        Value::Absent
    } else {
        Value::Given(n)
    }
}

// A name of a row, where its kind has one.
fn name(has: bool, at: u32, len: u32) -> Value
    ensures { value_said result ≡ name_held has at len }
{
    if has {
        Value::Named(Name { at, len })
    } else {
        Value::Absent
    }
}

// Where in a row the lengths of names stand.
const USER_LENGTH: usize = row::USER + 1;

const NAMED_LENGTH: usize = row::NAMED + 1;

// The ten values of a message, from its row: a User ID is for kind 1 only, and a transmitter is named by kinds 1, 3 and 4. (By the kind's number, the first of the
// ten: a match over the seven messages would say again what `row_of` says.)
pub fn values_of(row: [u32; NUMBERS]) -> Values
    ensures { map value_said result ≡ row_ten row }
{
    let kind = row[row::KIND];
    let names_one = (kind == 1) | (kind == 3) | (kind == 4);
    [
        Value::Given(kind),
        Value::Given(row[row::SSRC]),
        Value::Given(row[row::ACK]),
        name(kind == 1, row[row::USER], row[USER_LENGTH]),
        name(names_one, row[row::NAMED], row[NAMED_LENGTH]),
        number(row[row::RESULT]),
        number(row[row::CAUSE]),
        number(row[row::INDICATOR]),
        number(row[row::SOURCE]),
        number(row[row::ABOUT]),
    ]
}

// The octets of a packet that a value names.
fn octets_of(packet: &[u8], name: Name) -> &[u8]
    ensures { result.now ≡ take name.len (drop name.at packet.now) }
{
    let from = packet.len().min(name.at as usize);
    let end = from + (packet.len() - from).min(name.len as usize);
    &packet[from..end]
}

// How many octets a value's text has.
fn value_length(value: Value, packet: &[u8]) -> usize
    ensures { (result ≡ length (value_text packet.now (value_said value))) × (result < 4294967296) }
{
    match value {
        Value::Absent => 1,
        Value::Given(n) => decimal::length_of(n),
        Value::Named(name) => octets_of(packet, name).len(),
    }
}

// Puts a value's text at a place, and gives the place past it. (A buffer and a place here, as what is promised of lines speaks of the buffer and the place.)
fn put_value(out: &mut [u8], at: usize, value: Value, packet: &[u8]) -> usize
    requires { at + length (value_text packet.now (value_said value)) ≤ length out.old }
    ensures { Put (value_text packet.now (value_said value)) out.old at result out.new }
{
    match value {
        Value::Absent => {
            out[at] = b'-';
            at + 1
        }
        Value::Given(n) => decimal::put(out, at, n),
        Value::Named(name) => {
            let octets = octets_of(packet, name);
            octets::put_octets(out, at, octets);
            at + octets.len()
        }
    }
}

// Puts the k-th name and the k-th value's text at a place, and gives the place past them. There is room for the values from the k-th on, and then
// for those behind it.
fn put_entry(
    out: &mut [u8],
    at: usize,
    name: &[u8],
    values: &Values,
    k: usize,
    packet: &[u8],
) -> usize
    requires { (k < 10) × (name.now ≡ get_or labels k []) × (at + length (values_from packet.now (map value_said values.now) k) ≤ length out.old) }
    ensures { Put (entry_text packet.now (map value_said values.now) k) out.old at result out.new
        × (result + length (values_from packet.now (map value_said values.now) (k + 1)) ≤ length out.new) }
{
    octets::put_octets(out, at, name);
    put_value(out, at + name.len(), values[k], packet)
}

// How many octets the names have.
const NAMES: usize = 70;

// How many octets the values' text has: of ten values of less than 2^32 octets each and their names.
pub fn length_of(values: &Values, packet: &[u8]) -> usize
    ensures { (result ≡ length (values_from packet.now (map value_said values.now) 0)) × (result < 42949673030) }
{
    let mut length = NAMES;
    for value in values {
        length += value_length(*value, packet);
    }
    length
}

// Puts the values' text at a place, and gives the place past it. Each name is a constant, which is faster than a table of them.
pub fn put(out: &mut [u8], at: usize, values: &Values, packet: &[u8]) -> usize
    requires { at + length (values_from packet.now (map value_said values.now) 0) ≤ length out.old }
    ensures { Put (values_from packet.now (map value_said values.now) 0) out.old at result out.new }
{
    let mut end = at;
    end = put_entry(out, end, b"kind=", values, 0, packet);
    end = put_entry(out, end, b" ssrc=", values, 1, packet);
    end = put_entry(out, end, b" ack=", values, 2, packet);
    end = put_entry(out, end, b" user=", values, 3, packet);
    end = put_entry(out, end, b" named=", values, 4, packet);
    end = put_entry(out, end, b" result=", values, 5, packet);
    end = put_entry(out, end, b" cause=", values, 6, packet);
    end = put_entry(out, end, b" indicator=", values, 7, packet);
    end = put_entry(out, end, b" origin=", values, 8, packet);
    end = put_entry(out, end, b" about=", values, 9, packet);
    end
}
