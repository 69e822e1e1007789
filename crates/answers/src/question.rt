// One function for each of questions 1 to 8: takes it from a case's octets, asks, and gives the answer.
use super::packets::{Packets, counted};
use super::part::behind;
use super::{buffer, message, step, value};
use asked::reply::Reply;
use asked::{MOST, NUMBERS};
use seats::Senders;
use sheet::Refusal;
use sheet::numbers::{LINES, numbers_of};

// Puts how many octets were read or written (eight octets), and the refusal's number and line (four each), zeros where there is none.
pub fn put_result(reply: &mut Reply, done: Result<usize, Refusal>) {
    let (count, refused) = match done {
        Ok(count) => (count, [0, 0]),
        Err(refusal) => (0, [refusal.number(), refusal.line()]),
    };
    reply.counts(&[count]);
    reply.numbers(&refused);
}

// The answer that says these octets.
fn saying(octets: &[u8]) -> Reply {
    let mut reply = Reply::empty();
    reply.octets(octets);
    reply
}

// A seat: 1 and its number; 0 and 0 for nobody.
fn seat(found: Option<u8>) -> Reply {
    match found {
        Some(s) => saying(&[1, s]),
        None => saying(&[0, 0]),
    }
}

// 1: what a text reads to, and its User IDs: a value, zeros where it is refused, the octets used (eight), the refusal's number and line (four each).
pub fn read(text: &[u8]) -> Reply {
    let reading = sheet_text::read(text);
    let numbers = match reading {
        Ok(read) => numbers_of(read.sheet),
        Err(_) => [0; LINES],
    };
    let mut reply = Reply::empty();
    reply.numbers(&numbers);
    reply.octets(sheet_text::users(text).as_flattened());
    put_result(&mut reply, reading.map(|read| read.used));
    reply
}

// 2: whether some sheet reads to a value's numbers; and to the whole value.
pub fn valid(body: &[u8]) -> Reply {
    let sheet = asked::sheet_in(body);
    let whole = seats::valid_with(sheet, &value::users_in(body));
    saying(&[u8::from(sheet::valid(sheet)), u8::from(whole)])
}

// 3: whose SSRC it is that follows a value.
pub fn by_ssrc(body: &[u8]) -> Reply {
    let sheet = asked::sheet_in(body);
    let ssrcs = sheet.ssrcs;
    let senders = Senders {
        seats: sheet.seats,
        ssrcs,
    };
    let ssrc = octets::u32_at(body, value::LENGTH);
    seat(seats::find::by_ssrc(senders, ssrc))
}

// 4: whose User ID it is that follows a value.
pub fn by_user(body: &[u8]) -> Reply {
    let Some(name) = body.get(value::LENGTH..) else {
        return Reply::empty();
    };
    let sheet = asked::sheet_in(body);
    seat(seats::find::by_user(sheet.seats, &value::users_in(body), name))
}

// 5: whether a body can be a User ID.
pub fn is_user_id(body: &[u8]) -> Reply {
    saying(&[u8::from(seats::user::is_user_id(body))])
}

// 6: what each packet reads to under the numbers of a value. The packets stand behind those, each behind its count.
pub fn packets(body: &[u8]) -> Reply {
    let sheet = asked::sheet_in(body);
    let packets = Packets {
        rest: behind(body, NUMBERS),
    };
    let mut reply = Reply::empty();
    for packet in packets.take(MOST / message::LENGTH) {
        reply.numbers(&message::row_of(packet::read(sheet, packet)));
    }
    reply
}

// 7: what stands at each place of some octets, and what a field reader made there says. The octets stand behind their count, and the
// places, eight octets each, behind those.
pub fn fields(body: &[u8]) -> Reply {
    let mut reply = Reply::empty();
    let Some((octets, rest)) = counted(body) else {
        return reply;
    };
    let (places, _) = rest.as_chunks::<8>();
    for place in places.iter().take(MOST / (2 * step::LENGTH)) {
        let at = usize::from_be_bytes(*place);
        step::put_step(&mut reply, fields::field::field_at(octets, at));
        step::put_step(&mut reply, field_reader::field_in(octets, at));
    }
    reply
}

// 8: what is written of a message under the numbers of a value, into a buffer that was filled. Behind the numbers stand the message,
// the length of the buffer (four octets), and the octets that the message's names lie in. The answer: buffer.rt.
pub fn write(body: &[u8]) -> Reply {
    if body.len() < buffer::NAMES {
        return Reply::empty();
    }
    let room = octets::u32_at(body, buffer::NAMES - 4) as usize;
    if buffer::ROOM - message::LENGTH < room {
        return Reply::empty();
    }
    buffer::write(body, room)
}
