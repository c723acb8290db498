// The listing's lines, found one by one in a window of the input.
#![tactic(auto)]

ghost use Rattle.std.specs.Prelude.{◌≡◌, cond};
ghost use Rattle.lines.specs.Step.{ListStep};
ghost use Rattle.lines.specs.declared.Listed.TheVariants.{Drop, End};

use lines::Listed;

// Unfinished bytes: only at the end of the input is this the last line.
fn unfinished(start: usize, last: bool) -> Listed
    ensures { result ≡ cond last (End start 1) (Drop start) }
{
    if last {
        return Listed::End {
            at: start,
            answer: 1,
        };
    }
    Listed::Drop { glue: start }
}

/// The next line of a listing. `last` says that the input ends with the window.
pub fn list_step(window: &[u8], last: bool) -> Listed
    ensures { ListStep window.now last result }
{
    let mut cells = [0u64; 72];
    let c = reads::check_cells(window, &mut cells);
    let refusal = c.refusal;
    match refusal {
        1 => unfinished(c.start, last),
        2 => Listed::End {
            at: c.place,
            answer: 2,
        },
        3 => Listed::End {
            at: c.start,
            answer: 3,
        },
        _ => Listed::Line {
            start: c.start,
            end: c.end,
            kind: c.kind,
            refusal: refusal,
        },
    }
}
