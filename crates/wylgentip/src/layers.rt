// Classes by layers.
ghost use Rattle.std.specs.Prelude.{◌≡◌, [], ◌∷◌};
ghost use Rattle.layering.specs.Calls.{told, layers_leave};
ghost use Rattle.wylgentip.specs.Flat.{flat_layers};

use layering::layers::{Counts, layers};
use table::answer::Refusal;

// number 0: found, with m and r; else the refusal's number and place, and the rest is 0.
#[repr(C)]
#[derive(Clone, Copy, Default)]
pub struct WylLayered {
    pub number: usize,
    pub place: usize,
    pub classes: usize,
    pub rounds: usize,
}

impl From<Result<Counts, Refusal>> for WylLayered {
    ghost from_gives = { λ answer flat. flat ≡ flat_layers (told answer) };

    fn from(answer: Result<Counts, Refusal>) -> WylLayered {
        match answer {
            Ok(counts) => WylLayered {
                number: 0,
                place: 0,
                classes: counts.classes,
                rounds: counts.rounds,
            },
            Err(refusal) => WylLayered {
                number: refusal.kind.number(),
                place: refusal.place,
                ..WylLayered::default()
            },
        }
    }
}

// The class of each state, in the lent numbers.
#[unsafe(no_mangle)]
pub extern "C" fn wyl_layers(file: &[u8], work: &mut [u16], classes: &mut [u16]) -> WylLayered
    ensures answer { result ≡ flat_layers (layers_leave file.now work.old classes.old).said }
    ensures lent { work.new ∷ classes.new ∷ [] ≡ (layers_leave file.now work.old classes.old).lent }
{
    WylLayered::from(layers(file, work, classes))
}
