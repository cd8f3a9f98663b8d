// A run of takes under a budget.
ghost use Rattle.std.specs.Prelude.{◌≡◌, not, [], ◌∷◌, ℕ, ◌*◌, ◌<◌, ◌≤◌, eqb, length};
ghost use Rattle.counting.specs.Lists.{at};
ghost use Rattle.counting.specs.Least.{IsFirst};
ghost use Rattle.refining.specs.Lists.{WellFormed};
ghost use Rattle.table.specs.Tables.{unmarked};
ghost use Rattle.table.specs.Leaving.{left};
ghost use Rattle.splitting.specs.Work.{lists_in, lists_of, Classed, Counting, Same, Sized, Ready};
ghost use Rattle.splitting.specs.Running.{Ran, RanIn};
ghost use Rattle.splitting.specs.RunCall.{allowed, told_run, run_leaves};

use crate::copies::{copy_in, copy_out};
use crate::lists::ill_formed;
use crate::rooms::Rooms;
use crate::taking::take_one;
use lending::{clear, number_at, one_of};
use table::answer::{Kind, Refusal};
use table::fields::table_in;
use table::tables::NextStates;

// Takes made and entries looked at.
#[derive(Clone, Copy, Debug, PartialEq, Eq)]
pub struct Tally {
    pub takes: usize,
    pub entries: usize,
}

// Counts the states of each class.
#[tactic(auto, using(counting::proofs::Tallies::count_most), unfolding(counting::specs::Counts::count))]
fn count_sizes(classes: &[u16], sizes: &mut [u16])
    requires room { (length sizes.old ≡ length classes.now) × (length classes.now ≤ 1024) }
    requires classed { Classed (length classes.now) classes.now }
    requires none { (c : ℕ) → c < length classes.now → at sizes.old c ≡ 0 }
    ensures { Counting (length classes.now) classes.now sizes.new }
{
    for x in 0..classes.len() {
        let c = number_at(classes, x);
        sizes[c] += 1;
    }
}

// Makes the rooms ready for takes.
fn make_ready(rooms: &mut Rooms)
    requires room { (Sized (length rooms.old.classes.now) rooms.old) × (length rooms.old.classes.now ≤ 1024) }
    requires classed { Classed (length rooms.old.classes.now) rooms.old.classes.now }
    ensures ready { Ready (length rooms.old.classes.now) rooms.new }
    ensures lists { lists_of rooms.new ≡ lists_of rooms.old }
    ensures same { Same rooms.old rooms.new }
{
    rooms.sizes.fill(0);
    rooms.firsts.fill(0);
    rooms.gones.fill(0);
    rooms.leds.fill(0);
    let sizes = &mut *rooms.sizes;
    let classes = &mut *rooms.classes;
    count_sizes(classes, sizes);
}

// The first class that waits. None below a known state waits.
fn first_waiting(rooms: &Rooms, low: usize) -> Option<usize>
    requires low { low ≤ length rooms.now.pendings.now }
    requires none { (p : ℕ) → p < low → at rooms.now.pendings.now p ≡ 0 }
    ensures { IsFirst (length rooms.now.pendings.now) (λ q. not (eqb (at rooms.now.pendings.now q) 0)) result }
{
    for q in low..rooms.pendings.len() {
        if number_at(rooms.pendings, q) != 0 {
            return Some(q);
        }
    }
    None
}

// Makes takes until the budget is used or nothing waits, in rooms that are ready.
fn make_takes(nexts: &NextStates<'_>, budget: usize, rooms: &mut Rooms) -> Tally
    requires room { budget ≤ 65535 }
    requires formed { WellFormed nexts.now.sizes.states nexts.now.sizes.signs (lists_of rooms.old) }
    requires ready { Ready nexts.now.sizes.states rooms.old }
    ensures { Ran (unmarked nexts.now) budget rooms.old rooms.new result.takes result.entries }
{
    let mut entries = 0;
    let mut low = 0;
    for takes in 0..budget {
        let Some(q) = first_waiting(rooms, low) else {
            return Tally { takes, entries };
        };
        let look = take_one(nexts, rooms, q);
        // Where a class was split the search begins anew, else at the class just taken.
        low = one_of(look.split, 0, q);
        entries += look.entries;
    }
    Tally {
        takes: budget,
        entries,
    }
}

// Makes takes until the budget is used or nothing waits, on the lists in the work slice.
pub fn run_takes(nexts: &NextStates<'_>, budget: usize, work: &mut [u16]) -> Tally
    requires room { (8 * nexts.now.sizes.states ≤ length work.old) × (budget ≤ 65535) }
    requires formed { WellFormed nexts.now.sizes.states nexts.now.sizes.signs (lists_in nexts.now.sizes.states work.old) }
    ensures { RanIn (unmarked nexts.now) budget work.old work.new result.takes result.entries }
{
    let n = nexts.sizes.states;
    let (sizes, rest) = work.split_at_mut(n);
    let (firsts, rest) = rest.split_at_mut(n);
    let (gones, rest) = rest.split_at_mut(n);
    let (renamed, rest) = rest.split_at_mut(n);
    let (leds, rest) = rest.split_at_mut(n);
    let (touched, rest) = rest.split_at_mut(n);
    let (classes, rest) = rest.split_at_mut(n);
    let (pendings, _) = rest.split_at_mut(n);
    let mut rooms = Rooms {
        sizes,
        firsts,
        gones,
        renamed,
        leds,
        touched,
        classes,
        pendings,
    };
    make_ready(&mut rooms);
    make_takes(nexts, budget, &mut rooms)
}

// A budget above 65,535 counts as 65,535.
#[tactic(auto, unfolding(crate::specs::RunCall::allowed, counting::specs::Least::pick))]
fn allowed_takes(budget: usize) -> usize
    ensures { result ≡ allowed budget }
{
    budget.min(65535)
}

// A run of takes. Refuses 1 to 8 for the file, 11 at 16 × n, 12 at n, 13 at the least state where a list isn't well formed.
pub fn run(
    file: &[u8],
    budget: usize,
    class: &mut [u16],
    pending: &mut [u16],
    work: &mut [u16],
) -> Result<Tally, Refusal>
    ensures { left (told_run result) (class.new ∷ pending.new ∷ work.new ∷ []) ≡ run_leaves file.now budget class.old pending.old work.old }
{
    let table = table_in(file)?;
    let n = table.nexts.sizes.states;
    let room = 16 * n;
    if work.len() < room {
        return Err(Refusal {
            kind: Kind::Work,
            place: room,
        });
    }
    if class.len() < n || pending.len() < n {
        clear(work, room);
        return Err(Refusal {
            kind: Kind::Room,
            place: n,
        });
    }
    if let Some(ill) = ill_formed(class, pending, n, table.nexts.sizes.signs) {
        return Err(Refusal {
            kind: Kind::Lists,
            place: ill,
        });
    }
    // The places of the two lists in the one slice are those of `lists_in`.
    copy_in(class, work, 6 * n, n);
    copy_in(pending, work, 7 * n, n);
    let tally = run_takes(&table.nexts, allowed_takes(budget), work);
    copy_out(work, 6 * n, class, n);
    copy_out(work, 7 * n, pending, n);
    clear(work, room);
    Ok(tally)
}
