// What stands at a place of some octets, among the octets of an answer: five numbers of eight octets. Of a field they are 1, its place,
// ID and length, and the next place; of the end 2 and zeros; of a refusal 3, its number, its line, and zeros.
use asked::reply::Reply;
use fields::field::Field;
use sheet::Refusal;

// How many octets that takes.
pub const LENGTH: usize = 40;

// Puts what is said of a place.
pub fn put_step(reply: &mut Reply, said: Result<Option<Field>, Refusal>) {
    reply.counts(&match said {
        Ok(Some(field)) => [1, field.at, usize::from(field.id), field.len, field.next],
        Ok(None) => [2, 0, 0, 0, 0],
        Err(refusal) => [3, refusal.number() as usize, refusal.line() as usize, 0, 0],
    });
}
