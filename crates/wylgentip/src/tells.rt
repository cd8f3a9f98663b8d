// The word that tells two states apart.
ghost use Rattle.std.specs.Prelude.{◌≡◌, [], ◌∷◌};
ghost use Rattle.telling.specs.Calls.{told, tell_leaves};
ghost use Rattle.wylgentip.specs.Flat.{flat_tell};

use table::answer::Refusal;
use telling::words::tell;

// number 0: apart is 1 and length the word's, or apart is 0 and the states are alike; else the refusal's number and place, and the rest is 0.
#[repr(C)]
#[derive(Clone, Copy, Default)]
pub struct WylTold {
    pub number: usize,
    pub place: usize,
    pub apart: usize,
    pub length: usize,
}

impl From<Result<Option<usize>, Refusal>> for WylTold {
    ghost from_gives = { λ answer flat. flat ≡ flat_tell (told answer) };

    fn from(answer: Result<Option<usize>, Refusal>) -> WylTold {
        match answer {
            Ok(None) => WylTold::default(),
            Ok(Some(length)) => WylTold {
                number: 0,
                place: 0,
                apart: 1,
                length,
            },
            Err(refusal) => WylTold {
                number: refusal.kind.number(),
                place: refusal.place,
                ..WylTold::default()
            },
        }
    }
}

// The word's signs, in the lent bytes.
#[unsafe(no_mangle)]
pub extern "C" fn wyl_tell(
    file: &[u8],
    first: usize,
    second: usize,
    work: &mut [u16],
    word: &mut [u8],
) -> WylTold
    ensures answer { result ≡ flat_tell (tell_leaves file.now first second work.old word.old).said }
    ensures lent { work.new ∷ word.new ∷ [] ≡ (tell_leaves file.now first second work.old word.old).lent }
{
    WylTold::from(tell(file, first, second, work, word))
}
