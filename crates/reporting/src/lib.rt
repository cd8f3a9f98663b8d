// The report on a table: its sizes, the classes, and what a full splitting and the shrunk file come to.
#![tactic(auto)]

pub mod input;

ghost use Rattle.std.specs.Prelude.{◌≡◌, [], ◌∷◌, length};
ghost use Rattle.table.specs.Leaving.{left};
ghost use Rattle.reporting.specs.Reports.{told, Roomy, Reported, report_leaves};

use layering::layers::layers;
use shrinking::shrinks::shrink;
use splitting::runs::run;
use splitting::starts::fresh;
use std::fmt;
use table::answer::{Refusal, Sizes};
use table::judging::judge;

// n, k and start; m and r; takes and entries of a full splitting from fresh; rows of the shrunk file.
#[derive(Clone, Copy, Debug, PartialEq, Eq)]
pub struct Numbers {
    pub sizes: Sizes,
    pub classes: usize,
    pub rounds: usize,
    pub takes: usize,
    pub entries: usize,
    pub rows: usize,
}

impl fmt::Display for Numbers {
    fn fmt<W: fmt::Write>(&self, f: &mut fmt::Formatter<W>) -> fmt::Result {
        let sizes = self.sizes;
        writeln!(f, "sizes {} {} {}", sizes.states, sizes.signs, sizes.start)?;
        write!(f, "found {} {} ", self.classes, self.rounds)?;
        write!(f, "{} {} {}", self.takes, self.entries, self.rows)
    }
}

// The report, by calls one after the other; the first that refuses ends it. Where the work slice has 16,384 numbers, the lists 1,024 each and out 65,015 bytes,
// or more, only the file's own refusals 1 to 8 come, and of an accepted file the class names stand at the front of the class list.
pub fn report(
    file: &[u8],
    work: &mut [u16],
    classes: &mut [u16],
    pending: &mut [u16],
    out: &mut [u8],
) -> Result<Numbers, Refusal>
    ensures leaves { left (told result) (work.new ∷ classes.new ∷ pending.new ∷ out.new ∷ []) ≡ report_leaves file.now work.old classes.old pending.old out.old }
    ensures roomy { Roomy (length work.old) (length classes.old) (length pending.old) (length out.old) → Reported file.now (told result) classes.new }
{
    let sizes = judge(file)?;
    let counts = layers(file, work, classes)?;
    fresh(file, classes, pending)?;
    let tally = run(file, 65535, classes, pending, work)?;
    let size = shrink(file, work, out)?;
    Ok(Numbers {
        sizes,
        classes: counts.classes,
        rounds: counts.rounds,
        takes: tally.takes,
        entries: tally.entries,
        rows: size.rows,
    })
}
