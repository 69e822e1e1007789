// Stream records as octets: phase and receivers of each.
ghost use Rattle.rows.specs.Promises.{put_at≡, put_record≡, record_in≡, are_records≡, record_at≡};

use super::record::{self, record_of};
use reception::Record;
use sheet::Refusal;
use streams::stream;

// How many octets a record has.
const RECORD: usize = 2;

// And the records of eight streams.
const RECORDS: usize = 8 * RECORD;

// ---- a record as octets

// Puts a record in the place of a stream's; octets that end before it stay as they are.
pub fn put_at(octets: &mut [u8], stream: u8, own: Record)
    ensures { put_at≡ octets.old stream own octets.new }
{
    let at = RECORD * usize::from(stream);
    if octets.len() < at + RECORD {
        return;
    }
    octets[at] = u8::from(own.phase);
    octets[at + 1] = own.receivers;
}

// Puts a record into the front of a slice, or 11.
pub fn put_record(out: &mut [u8], own: Record) -> Result<(), Refusal>
    ensures { put_record≡ out.old own result out.new }
{
    if out.len() < RECORD {
        return Err(Refusal::NoRoom);
    }
    put_at(out, 0, own);
    Ok(())
}

// ---- octets as records

// The one record that octets are.
#[tactic(auto, using(crate::proofs::Laws::Records::records_other))]
pub fn record_in(octets: &[u8]) -> Option<Record>
    ensures { record_in≡ octets.now result }
{
    let [phase, receivers] = *octets else {
        return None;
    };
    record::record_in(u32::from(phase), u32::from(receivers))
}

// Whether octets are those of eight records.
pub fn are_records(octets: &[u8]) -> bool
    ensures { are_records≡ octets.now result }
{
    octets.len() == RECORDS && octets.chunks(RECORD).all(|own| record_in(own).is_some())
}

// The record of a stream, for who has asked whether octets are records. A phase above the last counts as the last, and where the octets end before the
// stream's record it is a free one.
pub fn record_at(octets: &[u8], stream: u8) -> Record
    ensures { record_at≡ octets.now stream result }
{
    let at = RECORD * usize::from(stream);
    if octets.len() < at + RECORD {
        return stream::free();
    }
    record_of(octets[at], octets[at + 1])
}
