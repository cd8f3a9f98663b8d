// Classes by splitting: the fresh lists, and runs of takes.
ghost use Rattle.std.specs.Prelude.{◌≡◌, [], ◌∷◌};
ghost use Rattle.splitting.specs.StartCall.{told_start, start_leaves};
ghost use Rattle.splitting.specs.RunCall.{told_run, run_leaves};
ghost use Rattle.wylgentip.specs.Flat.{flat_start, flat_run};

use splitting::runs::{Tally, run};
use splitting::starts::fresh;
use table::answer::Refusal;

// number 0: the lists are fresh; else the refusal's number and place.
#[repr(C)]
#[derive(Clone, Copy, Default)]
pub struct WylStarted {
    pub number: usize,
    pub place: usize,
}

// number 0: takes made and entries looked at; else the refusal's number and place, and the rest is 0.
#[repr(C)]
#[derive(Clone, Copy, Default)]
pub struct WylTaken {
    pub number: usize,
    pub place: usize,
    pub takes: usize,
    pub entries: usize,
}

impl From<Result<(), Refusal>> for WylStarted {
    ghost from_gives = { λ answer flat. flat ≡ flat_start (told_start answer) };

    fn from(answer: Result<(), Refusal>) -> WylStarted {
        match answer {
            Ok(()) => WylStarted::default(),
            Err(refusal) => WylStarted {
                number: refusal.kind.number(),
                place: refusal.place,
            },
        }
    }
}

impl From<Result<Tally, Refusal>> for WylTaken {
    ghost from_gives = { λ answer flat. flat ≡ flat_run (told_run answer) };

    fn from(answer: Result<Tally, Refusal>) -> WylTaken {
        match answer {
            Ok(tally) => WylTaken {
                number: 0,
                place: 0,
                takes: tally.takes,
                entries: tally.entries,
            },
            Err(refusal) => WylTaken {
                number: refusal.kind.number(),
                place: refusal.place,
                ..WylTaken::default()
            },
        }
    }
}

// The fresh lists, in the lent numbers.
#[unsafe(no_mangle)]
pub extern "C" fn wyl_fresh(file: &[u8], classes: &mut [u16], pending: &mut [u16]) -> WylStarted
    ensures answer { result ≡ flat_start (start_leaves file.now classes.old pending.old).said }
    ensures lent { classes.new ∷ pending.new ∷ [] ≡ (start_leaves file.now classes.old pending.old).lent }
{
    WylStarted::from(fresh(file, classes, pending))
}

// A run of takes on the lent lists.
#[unsafe(no_mangle)]
pub extern "C" fn wyl_run(
    file: &[u8],
    budget: usize,
    classes: &mut [u16],
    pending: &mut [u16],
    work: &mut [u16],
) -> WylTaken
    ensures answer { result ≡ flat_run (run_leaves file.now budget classes.old pending.old work.old).said }
    ensures lent { classes.new ∷ pending.new ∷ work.new ∷ [] ≡ (run_leaves file.now budget classes.old pending.old work.old).lent }
{
    WylTaken::from(run(file, budget, classes, pending, work))
}
