// The passes of a take that splits a class: new names, the pending and sizes of the parts, and the names taken over.
ghost use Rattle.std.specs.Prelude.{◌≡◌, ℕ, ◌<◌, ◌≤◌, length};
ghost use Rattle.counting.specs.Lists.{at};
ghost use Rattle.table.specs.Tables.{unmarked};
ghost use Rattle.splitting.specs.Work.{Classed, Renamed};
ghost use Rattle.splitting.specs.Parts.{numbers, Fit, Named, Parted, Shared};

use crate::hits::leads;
use lending::{copy_over, number_at, one_of};
use table::tables::NextStates;

// Names a state of class c anew: where it goes, by the first of its class that goes.
#[tactic(auto, unfolding(counting::specs::Least::pick))]
fn name_anew(
    firsts: &mut [u16],
    gones: &mut [u16],
    renamed: &mut [u16],
    c: usize,
    x: usize,
    goes: bool,
)
    requires within { (c < length firsts.old) × (c < length gones.old) × (x < length renamed.old) }
    requires small { (at gones.old c < 65535) × (c < 65536) × (x < 65536) }
    ensures { Named c x goes firsts.old gones.old renamed.old firsts.new gones.new renamed.new }
{
    if !goes {
        renamed[x] = c as u16;
        return;
    }
    let noted = number_at(firsts, c);
    let goer = one_of(noted == 0, x, noted);
    firsts[c] = goer as u16;
    gones[c] += 1;
    renamed[x] = goer as u16;
}

// Names every state anew, against the classes as they stand.
pub fn rename(
    nexts: &NextStates<'_>,
    classes: &[u16],
    firsts: &mut [u16],
    gones: &mut [u16],
    renamed: &mut [u16],
    q: usize,
    a: usize,
)
    requires classed { Classed nexts.now.sizes.states classes.now }
    requires sign { a < nexts.now.sizes.signs }
    requires room { (length firsts.old ≡ nexts.now.sizes.states) × (length gones.old ≡ nexts.now.sizes.states) × (length renamed.old ≡ nexts.now.sizes.states) }
    requires idle { (c : ℕ) → c < nexts.now.sizes.states → (at firsts.old c ≡ 0) × (at gones.old c ≡ 0) }
    ensures { Renamed (unmarked nexts.now) classes.now q a nexts.now.sizes.states firsts.new gones.new renamed.new }
{
    // A copy, which stays in registers while lent numbers are written.
    let nexts = *nexts;
    for x in 0..nexts.sizes.states {
        let c = number_at(classes, x);
        let own = leads(&nexts, classes, x, a, q);
        let name = leads(&nexts, classes, c, a, q);
        name_anew(firsts, gones, renamed, c, x, own != name);
    }
}

// Shares the pending and the size of a class among its two parts, where it is split.
#[tactic(auto, unfolding(counting::specs::Least::pick, crate::specs::Parts::kept_pending, crate::specs::Parts::new_pending))]
fn share_class(
    sizes: &mut [u16],
    firsts: &mut [u16],
    gones: &mut [u16],
    pendings: &mut [u16],
    signs: usize,
    p: usize,
)
    requires room { (length firsts.old ≡ length sizes.old) × (length gones.old ≡ length sizes.old) × (length pendings.old ≡ length sizes.old) × (signs ≤ 64) }
    requires within { (p < length sizes.old) × (at firsts.old p < length sizes.old) }
    requires part { (at firsts.old p ≡ 0 → ⊥) → at gones.old p ≤ at sizes.old p }
    ensures { Parted signs p (numbers sizes.old firsts.old gones.old pendings.old) (numbers sizes.new firsts.new gones.new pendings.new) }
{
    let r = number_at(firsts, p);
    if r == 0 {
        return;
    }
    let gone = number_at(gones, p);
    let kept = number_at(sizes, p) - gone;
    let old = number_at(pendings, p);
    let smaller = kept <= gone;
    pendings[r] = one_of(smaller, old, signs) as u16;
    pendings[p] = one_of(smaller, signs, old) as u16;
    sizes[r] = gone as u16;
    sizes[p] = kept as u16;
    firsts[p] = 0;
    gones[p] = 0;
}

// Shares the pending and the sizes of all classes that are split.
pub fn share(
    sizes: &mut [u16],
    firsts: &mut [u16],
    gones: &mut [u16],
    pendings: &mut [u16],
    signs: usize,
)
    requires small { signs ≤ 64 }
    requires fit { Fit (numbers sizes.old firsts.old gones.old pendings.old) }
    ensures { Shared signs (length sizes.old) (numbers sizes.old firsts.old gones.old pendings.old) (numbers sizes.new firsts.new gones.new pendings.new) }
{
    for p in 0..sizes.len() {
        share_class(sizes, firsts, gones, pendings, signs, p);
    }
}

// Takes the new names over.
pub fn adopt(classes: &mut [u16], renamed: &[u16])
    requires { length renamed.now ≡ length classes.old }
    ensures { classes.new ≡ renamed.now }
{
    copy_over(renamed, classes);
}
