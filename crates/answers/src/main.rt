// Answers made cases about sheets, packets and the controller by the proved functions, for the comparisons of tests/run. It holds no rule of its own.
// How cases come and answers go: `asked`. What may be asked, 1 to 8, 13 and 14, and what then stands in a case and in its answer: question.rt, from
// 13 on control.rt. Questions 9 to 12 are those of `schedules`.
#![tactic(auto)]

mod buffer;
mod control;
mod message;
mod packets;
mod part;
mod question;
mod step;
mod value;

use asked::Questions;
use asked::reply::Reply;

struct Answers;

impl Questions for Answers {
    // The answer to one question. A question that is not known has an empty one. (A match on a number, as it comes from outside.)
    fn answer(&self, what: u8, octets: &[u8]) -> Reply {
        match what {
            1 => question::read(octets),
            2 => question::valid(octets),
            3 => question::by_ssrc(octets),
            4 => question::by_user(octets),
            5 => question::is_user_id(octets),
            6 => question::packets(octets),
            7 => question::fields(octets),
            8 => question::write(octets),
            13 => control::events(octets),
            14 => control::packet(octets),
            _ => Reply::empty(),
        }
    }
}

fn main() {
    asked::answer_all(&Answers);
}
