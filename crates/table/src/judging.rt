// The judgement of a file: its fields one after the other, then what follows them.
ghost use Rattle.std.specs.Prelude.{◌≡◌};
ghost use Rattle.table.specs.Answers.{told};
ghost use Rattle.table.specs.Judging.{judged};

use crate::answer::{Kind, Refusal, Sizes};
use crate::reading::{read_marks, read_nexts, read_sizes};

// Takes any bytes. Accepts with n, k and start, or refuses with 1 to 8 and the place. One pass over the file.
pub fn judge(file: &[u8]) -> Result<Sizes, Refusal>
    ensures { told result ≡ judged file.now }
{
    let sizes = read_sizes(file)?;
    let n = sizes.states;
    let m = n * sizes.signs;
    read_marks(file, n)?;
    let nexts = read_nexts(file, n, m)?;
    let end = nexts.place + nexts.length;
    if end < file.len() {
        return Err(Refusal {
            kind: Kind::Behind,
            place: end,
        });
    }
    Ok(sizes)
}
