// Where a message starts and ends.
ghost use Rattle.c_promises.specs.Reading.{Told};

/// What stands behind the glue in front of the bytes: the answer's number; where it starts, glue dropped; and the end of a
/// message or the place that is malformed, else 0.
#[unsafe(no_mangle)]
pub extern "C" fn tryphomel_read(bytes: &[u8], start: &mut u64, place: &mut u64) -> u8
    ensures { Told bytes.now result start.new place.new }
{
    hermes_c::tryphomel_read(bytes, start, place)
}
