// The states that can be reached from the start, by sweeps over all states.
ghost use Rattle.std.specs.Prelude.{◌≡◌, ℕ, ◌<◌, ◌≤◌, length};
ghost use Rattle.counting.specs.Lists.{at};
ghost use Rattle.table.specs.Tables.{unmarked};
ghost use Rattle.shrinking.specs.Reached.{Spread, SpreadMarked, Sound, Swept, FoundIn, Found};

use lending::number_at;
use table::tables::NextStates;

// Marks the next states of a state; gives whether one was not marked before.
#[tactic(auto, using(crate::proofs::Spreading::spread_none, crate::proofs::Spreading::spread_more))]
fn spread(nexts: &NextStates<'_>, reached: &mut [u16], q: usize) -> bool
    requires sized { length reached.old ≡ nexts.now.sizes.states }
    requires state { q < nexts.now.sizes.states }
    requires small { (x : ℕ) → x < nexts.now.sizes.states → at reached.old x ≤ 1 }
    ensures { Spread (unmarked nexts.now) q nexts.now.sizes.signs reached.old reached.new result }
{
    // A copy, which stays in registers while lent numbers are written.
    let nexts = *nexts;
    let mut new = false;
    for a in 0..nexts.sizes.signs {
        let next = nexts.next_of(q, a);
        new |= number_at(reached, next) == 0;
        reached[next] = 1;
    }
    new
}

// Marks the next states of a state that is marked.
fn spread_marked(nexts: &NextStates<'_>, reached: &mut [u16], q: usize) -> bool
    requires sized { length reached.old ≡ nexts.now.sizes.states }
    requires state { q < nexts.now.sizes.states }
    requires small { (x : ℕ) → x < nexts.now.sizes.states → at reached.old x ≤ 1 }
    ensures { SpreadMarked (unmarked nexts.now) q reached.old reached.new result }
{
    if number_at(reached, q) == 0 {
        return false;
    }
    spread(nexts, reached, q)
}

// One sweep over all states; gives whether a state was newly marked.
fn sweep(nexts: &NextStates<'_>, reached: &mut [u16]) -> bool
    requires sized { length reached.old ≡ nexts.now.sizes.states }
    requires sound { Sound (unmarked nexts.now) reached.old }
    ensures { Swept (unmarked nexts.now) reached.old reached.new result }
{
    let mut new = false;
    for q in 0..nexts.sizes.states {
        new |= spread_marked(nexts, reached, q);
    }
    new
}

// Marks the states that are reached, by sweeps until one marks nothing new.
fn mark_reached(nexts: &NextStates<'_>, reached: &mut [u16])
    requires { length reached.old ≡ nexts.now.sizes.states }
    ensures { FoundIn (unmarked nexts.now) reached.new }
{
    reached.fill(0);
    reached[nexts.sizes.start] = 1;
    // No index is counted: a sweep says whether another is due.
    while sweep(nexts, reached) {}
}

// Marks the states that are reached, at the front of lent numbers.
pub fn find_reached(nexts: &NextStates<'_>, work: &mut [u16])
    requires { nexts.now.sizes.states ≤ length work.old }
    ensures { Found (unmarked nexts.now) work.old work.new }
{
    mark_reached(nexts, &mut work[..nexts.sizes.states]);
}
