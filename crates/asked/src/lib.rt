// What the comparisons of tests/run ask of the programs `answers` and `schedules`, and what these answer, by cases.
//
// Standard input: how many cases there are; then for each an octet for what is asked, a length and that many octets.
// Standard output: for each case a length and that many octets, the answer. Counts and lengths are four octets, big-endian.
#![tactic(auto)]

pub mod reply;

ghost use Rattle.std.specs.Prelude.{◌≡◌, ◌≤◌, length};
ghost use Rattle.asked.specs.Value.{ssrcs_at};
ghost use Rattle.asked.specs.Promises.{sheet_in≡};

use octets::u32_at;
use reply::Reply;
use sheet::numbers::LINES;
use sheet::{SEATS, Sheet};

// The most octets that an answer has.
pub const MOST: usize = 1020;

// How many octets the numbers of a sheet's value take: eleven and eight SSRCs.
pub const NUMBERS: usize = 4 * LINES;

// What is asked, and how many octets of its case there are.
#[derive(Clone, Copy)]
pub struct Asked {
    pub what: u8,
    pub length: usize,
}

// Reads the next case, its octets into the front of body. A case too long for body counts as one that asks nothing.
pub fn next(body: &mut [u8]) -> Asked
    ensures { (length body.new ≡ length body.old) × (result.length ≤ length body.old) }
{
    let mut head = [0u8; 5];
    io::read_full(0, &mut head);
    let length = u32_at(&head, 1) as usize;
    if body.len() < length {
        return Asked { what: 0, length: 0 };
    }
    Asked {
        what: head[0],
        length: io::read_full(0, &mut body[..length]),
    }
}

// Writes an answer's length and the answer: so many octets, or all where there are not so many.
pub fn write(octets: &[u8], length: usize) {
    let answer = octets.get(..length).unwrap_or(octets);
    io::write_all(1, &((answer.len() % 4294967296) as u32).to_be_bytes());
    io::write_all(1, answer);
}

// A program's questions.
pub trait Questions {
    // The answer to what is asked, of the octets of a case.
    fn answer(&self, what: u8, octets: &[u8]) -> Reply;
}

// Answers all cases of standard input.
pub fn answer_all<Q: Questions>(questions: &Q) {
    let mut count = [0u8; 4];
    io::read_full(0, &mut count);
    let mut body = io::large_buffer();
    for _ in 0..u32::from_be_bytes(count) {
        let asked = next(&mut body);
        let reply = questions.answer(asked.what, &body[..asked.length]);
        write(reply.as_slice(), MOST);
    }
}

fn ssrcs_in(body: &[u8]) -> [u32; SEATS]
    ensures { result ≡ ssrcs_at body.now }
{
    let mut ssrcs = [0; SEATS];
    for k in 0..SEATS {
        ssrcs[k] = u32_at(body, 44 + 4 * k);
    }
    ssrcs
}

// The sheet whose numbers stand at the front of a body, an octet past its end counting as 0.
#[tactic(auto, unfolding(sheet::specs::Value::sheet_by))]
pub fn sheet_in(body: &[u8]) -> Sheet
    ensures { sheet_in≡ body.now result }
{
    Sheet {
        server: u32_at(body, 0),
        limit: u32_at(body, 4),
        request: u32_at(body, 8),
        response: u32_at(body, 12),
        endrequest: u32_at(body, 16),
        endresponse: u32_at(body, 20),
        txend: u32_at(body, 24),
        txendresponse: u32_at(body, 28),
        ack: u32_at(body, 32),
        resultid: u32_at(body, 36),
        seats: u32_at(body, 40),
        ssrcs: ssrcs_in(body),
    }
}
