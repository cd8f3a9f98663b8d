// The telling word, sign by sign: each the least whose next states part one layer before.
ghost use Rattle.std.specs.Prelude.{◌*◌, ◌<◌, ◌≤◌, length};
ghost use Rattle.telling.specs.Kept.{states, Kept, KeptIn, Differ, PartingSign, PartedBy, Spelled};

use crate::climbing::LastLayer;
use lending::number_at;
use table::tables::NextStates;

// Whether two states have different names in a layer. Where their last names are equal no layer parts them.
#[tactic(auto, using(crate::proofs::Spellings::never_differ))]
fn differ(last: &LastLayer<'_>, x: usize, y: usize, layer: usize) -> bool
    requires states { (x < states last.now) × (y < states last.now) }
    requires kept { Kept last.now }
    ensures { Differ last.now x y layer result }
{
    if number_at(last.names, x) == number_at(last.names, y) {
        return false;
    }
    last.name_in(x, layer) != last.name_in(y, layer)
}

// The least sign under which the next states of two states have different names in a layer, else the number of signs. No `Option`: `PartingSign` promises that number, by `parting_sign` of the machine.
#[tactic(auto, using(crate::proofs::Spellings::sign_found, crate::proofs::Spellings::sign_none))]
fn parting_sign(
    nexts: &NextStates<'_>,
    last: &LastLayer<'_>,
    p: usize,
    q: usize,
    layer: usize,
) -> usize
    requires states { (p < nexts.now.sizes.states) × (q < nexts.now.sizes.states) }
    requires kept { KeptIn nexts.now last.now }
    ensures { PartingSign nexts.now last.now p q layer result }
{
    let signs = nexts.sizes.signs;
    for a in 0..signs {
        let left = nexts.next_of(p, a);
        let right = nexts.next_of(q, a);
        if differ(last, left, right, layer) {
            return a;
        }
    }
    signs
}

// Writes the word of some signs that tells two states apart which part in that layer.
pub fn write_word(
    nexts: &NextStates<'_>,
    last: &LastLayer<'_>,
    p: usize,
    q: usize,
    depth: usize,
    word: &mut [u8],
)
    requires room { depth ≤ length word.old }
    requires states { (p < nexts.now.sizes.states) × (q < nexts.now.sizes.states) }
    requires parted { PartedBy nexts.now last.now p q depth }
    ensures { Spelled nexts.now last.now p q depth word.old word.new }
{
    let mut one = p;
    let mut other = q;
    for i in 0..depth {
        let layer = depth - 1 - i;
        let a = parting_sign(nexts, last, one, other, layer);
        word[i] = a as u8;
        one = nexts.next_of(one, a);
        other = nexts.next_of(other, a);
    }
}
