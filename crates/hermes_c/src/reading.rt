// Where a message starts and ends.
ghost use Rattle.c_promises.specs.Reading.{Told};

use reader::answer::Answer;

/// What stands behind the glue in front of the bytes: the answer's number; where it starts, glue dropped; and the end of a
/// message or the place that is malformed, else 0.
pub fn tryphomel_read(bytes: &[u8], start: &mut u64, place: &mut u64) -> u8
    ensures { Told bytes.now result start.new place.new }
{
    let answer = reader::read(bytes);
    match answer {
        Answer::Ends { start: a, end } => {
            *start = a as u64;
            *place = end as u64;
            0
        }
        Answer::More { start: a } => {
            *start = a as u64;
            *place = 0;
            1
        }
        Answer::Malformed { start: a, place: p } => {
            *start = a as u64;
            *place = p as u64;
            2
        }
        Answer::TooLong { start: a } => {
            *start = a as u64;
            *place = 0;
            3
        }
    }
}
