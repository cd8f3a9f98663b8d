// Judging a file, and where its fields stand.
ghost use Rattle.std.specs.Prelude.{◌≡◌};
ghost use Rattle.table.specs.Answers.{told};
ghost use Rattle.table.specs.Judging.{judged};
ghost use Rattle.table.specs.Bodies.{body_of};
ghost use Rattle.wylgentip.specs.Flat.{flat_judged, flat_part};

use table::answer::{Part, Refusal, Sizes};
use table::fields::part_of;
use table::judging::judge;

// number 0: accepted, with n, k and start; else the refusal's number and place, and the rest is 0.
#[repr(C)]
#[derive(Clone, Copy, Default)]
pub struct WylJudged {
    pub number: usize,
    pub place: usize,
    pub states: usize,
    pub signs: usize,
    pub start: usize,
}

#[repr(C)]
#[derive(Clone, Copy)]
pub struct WylPart {
    pub place: usize,
    pub length: usize,
}

impl From<Result<Sizes, Refusal>> for WylJudged {
    ghost from_gives = { λ answer flat. flat ≡ flat_judged (told answer) };

    fn from(answer: Result<Sizes, Refusal>) -> WylJudged {
        match answer {
            Ok(sizes) => WylJudged {
                number: 0,
                place: 0,
                states: sizes.states,
                signs: sizes.signs,
                start: sizes.start,
            },
            Err(refusal) => WylJudged {
                number: refusal.kind.number(),
                place: refusal.place,
                ..WylJudged::default()
            },
        }
    }
}

impl From<Part> for WylPart {
    ghost from_gives = { λ part flat. flat ≡ flat_part part };

    fn from(part: Part) -> WylPart {
        WylPart {
            place: part.place,
            length: part.length,
        }
    }
}

// The judgement of a file.
#[unsafe(no_mangle)]
pub extern "C" fn wyl_judge(file: &[u8]) -> WylJudged
    ensures { result ≡ flat_judged (judged file.now) }
{
    WylJudged::from(judge(file))
}

// Where the body of a field stands in the file.
#[unsafe(no_mangle)]
pub extern "C" fn wyl_field(file: &[u8], number: usize) -> WylPart
    ensures { result ≡ flat_part (body_of file.now number) }
{
    WylPart::from(part_of(file, number))
}
