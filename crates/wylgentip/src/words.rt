// Running words and lines.
ghost use Rattle.std.specs.Prelude.{◌≡◌};
ghost use Rattle.running.specs.Running.{told, ran_word, ran_line};
ghost use Rattle.wylgentip.specs.Flat.{flat_ran};

use running::words::{run_line, run_word};
use table::answer::Refusal;

// number 0: run to the end, with the mark of the last state; else the refusal's number and place, and kind is 0.
#[repr(C)]
#[derive(Clone, Copy, Default)]
pub struct WylRan {
    pub number: usize,
    pub place: usize,
    pub kind: usize,
}

impl From<Result<usize, Refusal>> for WylRan {
    ghost from_gives = { λ answer flat. flat ≡ flat_ran (told answer) };

    fn from(answer: Result<usize, Refusal>) -> WylRan {
        match answer {
            Ok(mark) => WylRan {
                number: 0,
                place: 0,
                kind: mark,
            },
            Err(refusal) => WylRan {
                number: refusal.kind.number(),
                place: refusal.place,
                ..WylRan::default()
            },
        }
    }
}

// A word, one sign a byte.
#[unsafe(no_mangle)]
pub extern "C" fn wyl_run_word(file: &[u8], word: &[u8]) -> WylRan
    ensures { result ≡ flat_ran (ran_word file.now word.now) }
{
    WylRan::from(run_word(file, word))
}

// A line, by the sign plan.
#[unsafe(no_mangle)]
pub extern "C" fn wyl_run_line(file: &[u8], line: &[u8]) -> WylRan
    ensures { result ≡ flat_ran (ran_line file.now line.now) }
{
    WylRan::from(run_line(file, line))
}
