// The layered call: the class of each state, the number of classes and the rounds.
ghost use Rattle.std.specs.Prelude.{◌≡◌, [], ◌∷◌, ◌≤◌, length};
ghost use Rattle.automaton.specs.Layers.{class_count};
ghost use Rattle.lending.specs.Memory.{written};
ghost use Rattle.table.specs.Leaving.{left};
ghost use Rattle.layering.specs.Calls.{told, layers_leave};

use crate::rounds::find_classes;
use lending::{clear, copy_over};
use table::answer::{Kind, Refusal};
use table::fields::table_in;

// m and r.
#[derive(Clone, Copy, Debug, PartialEq, Eq)]
pub struct Counts {
    pub classes: usize,
    pub rounds: usize,
}

// Writes the class names to the front of the result; gives how many there are.
#[tactic(auto, using(crate::proofs::Copying::names_none, crate::proofs::Copying::names_more, crate::proofs::Copying::names_most), unfolding(lending::specs::Memory::written))]
fn write_names(names: &[u16], res: &mut [u16]) -> usize
    requires { length names.now ≤ length res.old }
    ensures names { result ≡ class_count (length names.now) names.now }
    ensures copied { res.new ≡ written names.now res.old }
{
    let n = names.len();
    copy_over(names, &mut res[..n]);
    let mut count = 0;
    for q in 0..n {
        count += usize::from(names[q] as usize == q);
    }
    count
}

// The classes by layers. Refuses 1 to 8 for the file, 11 at 16 × n, 12 at n; else the class names stand at the front of the result.
#[tactic(auto, using(crate::proofs::Ways::layers_refused, crate::proofs::Ways::lent_narrow, crate::proofs::Ways::lent_short, crate::proofs::Ways::lent_found))]
pub fn layers(file: &[u8], work: &mut [u16], res: &mut [u16]) -> Result<Counts, Refusal>
    ensures { left (told result) (work.new ∷ res.new ∷ []) ≡ layers_leave file.now work.old res.old }
{
    let table = table_in(file)?;
    let n = table.nexts.sizes.states;
    let room = 16 * n;
    if work.len() < room {
        return Err(Refusal {
            kind: Kind::Work,
            place: room,
        });
    }
    if res.len() < n {
        clear(work, room);
        return Err(Refusal {
            kind: Kind::Room,
            place: n,
        });
    }
    let rounds = find_classes(&table, work);
    let classes = write_names(&work[..n], res);
    clear(work, room);
    Ok(Counts { classes, rounds })
}
