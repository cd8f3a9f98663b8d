// The first pass of a take, over its sign's column: the states that lead into the class taken, counted by class; and whether a class is split.
ghost use Rattle.std.specs.Prelude.{◌≡◌, ℕ, ◌+◌, ◌<◌, ◌≤◌, length, set};
ghost use Rattle.counting.specs.Lists.{at};
ghost use Rattle.table.specs.Tables.{unmarked};
ghost use Rattle.splitting.specs.Work.{leads_to, Classed, Counted, Unled};

use lending::number_at;
use table::tables::NextStates;

// Whether the next state of a state under a sign lies in a class.
#[tactic(auto, unfolding(crate::specs::Work::leads_to))]
pub fn leads(nexts: &NextStates<'_>, classes: &[u16], x: usize, a: usize, q: usize) -> bool
    requires room { nexts.now.sizes.states ≤ length classes.now }
    requires state { (x < nexts.now.sizes.states) × (a < nexts.now.sizes.signs) }
    ensures { result ≡ leads_to (unmarked nexts.now) classes.now q a x }
{
    number_at(classes, nexts.next_of(x, a)) == q
}

// Looks at the next state of every state under a sign; counts by class those that lie in the class taken, notes their classes, and gives how many there are.
pub fn count_hits(
    nexts: &NextStates<'_>,
    classes: &[u16],
    leds: &mut [u16],
    touched: &mut [u16],
    q: usize,
    a: usize,
) -> usize
    requires classed { Classed nexts.now.sizes.states classes.now }
    requires sign { a < nexts.now.sizes.signs }
    requires room { (length leds.old ≡ nexts.now.sizes.states) × (length touched.old ≡ nexts.now.sizes.states) }
    requires unled { (c : ℕ) → c < nexts.now.sizes.states → at leds.old c ≡ 0 }
    ensures { Counted (unmarked nexts.now) classes.now q a nexts.now.sizes.states leds.new touched.new result }
{
    // A copy, which stays in registers while lent numbers are written.
    let nexts = *nexts;
    let mut entries = 0;
    for x in 0..nexts.sizes.states {
        if leads(&nexts, classes, x, a, q) {
            let c = number_at(classes, x);
            touched[entries] = c as u16;
            leds[c] += 1;
            entries += 1;
        }
    }
    entries
}

// Sets the counts of the touched classes to 0 again; gives whether some class has states that lead into the class taken, and others. The entries stand beside their list, since with a part of it lent the proof
// did not close: it then loses how long the rooms are.
#[tactic(auto, using(counting::proofs::Tallies::any_iff), unfolding(crate::specs::Work::some_split))]
pub fn settle_hits(sizes: &[u16], leds: &mut [u16], touched: &[u16], entries: usize) -> bool
    requires room { (length leds.old ≡ length sizes.now) × (entries ≤ length touched.now) }
    requires within { (j : ℕ) → j < entries → at touched.now j < length sizes.now }
    requires touched { (c : ℕ) → c < length sizes.now → (at leds.old c ≡ 0 → ⊥) → (j : ℕ) × (j < entries) × (at touched.now j ≡ c) }
    ensures { Unled sizes.now leds.old leds.new result }
{
    let mut split = false;
    for j in 0..entries {
        let c = number_at(touched, j);
        let count = number_at(leds, c);
        let cut = count != 0 && count != number_at(sizes, c);
        split |= cut;
        leds[c] = 0;
    }
    split
}
