// The shrunk file.
ghost use Rattle.std.specs.Prelude.{◌≡◌, [], ◌∷◌};
ghost use Rattle.shrinking.specs.Calls.{told, shrink_leaves};
ghost use Rattle.wylgentip.specs.Flat.{flat_shrink};

use shrinking::shrinks::{Size, shrink};
use table::answer::Refusal;

// number 0: the rows of the shrunk file and its length; else the refusal's number and place, and the rest is 0.
#[repr(C)]
#[derive(Clone, Copy, Default)]
pub struct WylShrunk {
    pub number: usize,
    pub place: usize,
    pub rows: usize,
    pub length: usize,
}

impl From<Result<Size, Refusal>> for WylShrunk {
    ghost from_gives = { λ answer flat. flat ≡ flat_shrink (told answer) };

    fn from(answer: Result<Size, Refusal>) -> WylShrunk {
        match answer {
            Ok(size) => WylShrunk {
                number: 0,
                place: 0,
                rows: size.rows,
                length: size.length,
            },
            Err(refusal) => WylShrunk {
                number: refusal.kind.number(),
                place: refusal.place,
                ..WylShrunk::default()
            },
        }
    }
}

// The shrunk file, in the lent bytes.
#[unsafe(no_mangle)]
pub extern "C" fn wyl_shrink(file: &[u8], work: &mut [u16], out: &mut [u8]) -> WylShrunk
    ensures answer { result ≡ flat_shrink (shrink_leaves file.now work.old out.old).said }
    ensures lent { work.new ∷ out.new ∷ [] ≡ (shrink_leaves file.now work.old out.old).lent }
{
    WylShrunk::from(shrink(file, work, out))
}
