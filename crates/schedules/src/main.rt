// Answers made cases about reception by the proved functions, for the comparisons of tests/run. It holds no rule of its own. How cases come and answers
// go: `asked`. What may be asked, 9 to 12, and what then stands in a case and in its answer: question.rt.
#![tactic(auto)]

mod question;
mod routine;
mod said;

use asked::Questions;
use asked::reply::Reply;

struct Schedules;

impl Questions for Schedules {
    fn answer(&self, what: u8, octets: &[u8]) -> Reply {
        question::answer(what, octets)
    }
}

fn main() {
    asked::answer_all(&Schedules);
}
