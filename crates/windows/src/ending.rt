// How a program over an input ends.
ghost use Rattle.std.specs.Prelude.{◌≡◌, ◌≤◌, length, ◌≢◌};
ghost use Rattle.windows.specs.declared.ending.Ending.TheVariants.{Broken, Spent};

use crate::output::flush;

/// With its last line; where reading or writing failed; or with its last turn.
#[derive(Clone, Copy)]
pub enum Ending {
    Whole,
    Broken,
    Unwritten,
    Spent,
}

/// With the last line: what waits, the first `at` bytes, is handed out.
pub fn ended(rt: &impl Print, out: &[u8], at: usize) -> Ending
    requires { at ≤ length out.now }
    ensures result_nonzero { result ≢ Broken }
    ensures result_nonzero_2 { result ≢ Spent }
{
    if flush(rt, out, at) {
        return Ending::Whole;
    }
    Ending::Unwritten
}

/// Says on standard error what is not the end of the input.
pub fn tell(rt: &impl Eprint, ending: Ending) {
    match ending {
        Ending::Whole => {}
        Ending::Broken => {
            let _ = rt.eprintln("the input can't be read on");
        }
        Ending::Unwritten => {
            let _ = rt.eprintln("the lines can't be written");
        }
        Ending::Spent => {
            let _ = rt.eprintln("the input is too long");
        }
    }
}
