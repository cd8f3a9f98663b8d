// The call: the word that tells two states apart, or alike.
ghost use Rattle.std.specs.Prelude.{◌≡◌, [], ◌∷◌, ℕ, ◌*◌, ◌<◌, ◌≤◌, length};
ghost use Rattle.counting.specs.Lists.{at};
ghost use Rattle.automaton.specs.Telling.{telling};
ghost use Rattle.lending.specs.Memory.{cleared};
ghost use Rattle.table.specs.Leaving.{left};
ghost use Rattle.table.specs.Tables.{machine};
ghost use Rattle.telling.specs.Calls.{told, spoken, tell_leaves};

use crate::climbing::LastLayer;
use crate::writing::write_word;
use layering::rounds::find_classes;
use lending::{clear, number_at};
use table::answer::{Kind, Refusal};
use table::fields::table_in;
use table::tables::Table;

// Finds the word by the layers, in the first 6 × n numbers of the work slice.
fn find_word(
    table: &Table<'_>,
    p: usize,
    q: usize,
    work: &mut [u16],
    word: &mut [u8],
) -> Result<Option<usize>, Refusal>
    requires room { 6 * table.now.nexts.sizes.states ≤ length work.old }
    requires states { (p < table.now.nexts.sizes.states) × (q < table.now.nexts.sizes.states) }
    ensures said { left (told result) (cleared (16 * table.now.nexts.sizes.states) work.old ∷ word.new ∷ []) ≡ spoken (telling (machine table.now) p q) (cleared (16 * table.now.nexts.sizes.states) work.old) word.old }
    ensures beyond { (length work.new ≡ length work.old) × ((i : ℕ) → 6 * table.now.nexts.sizes.states ≤ i → at work.new i ≡ at work.old i) }
{
    let n = table.nexts.sizes.states;
    find_classes(table, work);
    // Where `Settled` says that they stand.
    let lent = &work[..];
    let last = LastLayer {
        names: &lent[..n],
        births: &lent[3 * n..4 * n],
        parents: &lent[4 * n..5 * n],
    };
    if number_at(last.names, p) == number_at(last.names, q) {
        return Ok(None);
    }
    let depth = last.parted_in(p, q);
    if word.len() < depth {
        return Err(Refusal {
            kind: Kind::Room,
            place: depth,
        });
    }
    write_word(&table.nexts, &last, p, q, depth, word);
    Ok(Some(depth))
}

// The word that tells states p and q apart: none where they are alike, else its length, and its signs stand at the front of the lent bytes. Refuses 1 to 8
// for the file, 10 at 0 or 1 for a state of n or more, 11 at 16 × n, 12 at the word's length.
pub fn tell(
    file: &[u8],
    p: usize,
    q: usize,
    work: &mut [u16],
    word: &mut [u8],
) -> Result<Option<usize>, Refusal>
    ensures { left (told result) (work.new ∷ word.new ∷ []) ≡ tell_leaves file.now p q work.old word.old }
{
    let table = table_in(file)?;
    let n = table.nexts.sizes.states;
    if n <= p {
        return Err(Refusal {
            kind: Kind::Asked,
            place: 0,
        });
    }
    if n <= q {
        return Err(Refusal {
            kind: Kind::Asked,
            place: 1,
        });
    }
    let room = 16 * n;
    if work.len() < room {
        return Err(Refusal {
            kind: Kind::Work,
            place: room,
        });
    }
    let parting = find_word(&table, p, q, work, word);
    clear(work, room);
    parting
}
