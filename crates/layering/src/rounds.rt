// One round: the names of the next layer, in lists of n numbers from the work slice. A class that does not split costs one comparison for
// each of its states.
ghost use Rattle.std.specs.Prelude.{◌≡◌, ◌*◌, ◌<◌, ◌≤◌, length};
ghost use Rattle.table.specs.Tables.{machine, unmarked};
ghost use Rattle.layering.specs.Layered.{AtLayer, Rested, Settled};
ghost use Rattle.layering.specs.Sized.{Sized};
ghost use Rattle.layering.specs.Work.{numbers_of, marked_by, Kept, same_nexts, bucket, Named, Done, Sought, Advanced, Rounded, Moved};

use crate::first::first_names;
use crate::rooms::Rooms;
use lending::{copy_over, number_at};
use table::tables::{NextStates, Table};

// Whether the next states of two states have the same names in this layer, under every sign.
#[tactic(auto, using(counting::proofs::Tallies::all_iff, counting::proofs::Tallies::all_fails), unfolding(crate::specs::Work::same_nexts))]
fn same_nexts(nexts: &NextStates<'_>, names: &[u16], q: usize, r: usize) -> bool
    requires room { nexts.now.sizes.states ≤ length names.now }
    requires states { (q < nexts.now.sizes.states) × (r < nexts.now.sizes.states) }
    ensures { result ≡ same_nexts (unmarked nexts.now) names.now q r }
{
    for a in 0..nexts.sizes.signs {
        let left = nexts.next_of(q, a);
        let right = nexts.next_of(r, a);
        if number_at(names, left) != number_at(names, right) {
            return false;
        }
    }
    true
}

// The bucket of a state: by its name and those of its next states in this layer, so that states alike in the next layer have one bucket.
#[tactic(auto, unfolding(crate::specs::Work::mixed, crate::specs::Work::bucket))]
fn bucket_of(nexts: &NextStates<'_>, names: &[u16], q: usize) -> usize
    requires room { nexts.now.sizes.states ≤ length names.now }
    requires state { q < nexts.now.sizes.states }
    ensures { result ≡ bucket (unmarked nexts.now) names.now q }
{
    let mut mixed = number_at(names, q);
    for sign in 0..nexts.sizes.signs {
        let name = number_at(names, nexts.next_of(q, sign));
        mixed = (mixed * 2654435761 + name) % 4294967296;
    }
    mixed / 65536 % nexts.sizes.states
}

// The name of a state in the next layer: one that was there before it or that it had, or its own, new, with its bucket.
// An enum of its own, since neither case is an absence.
#[derive(Clone, Copy, Debug, PartialEq, Eq)]
pub enum Seek {
    Found(usize),
    New(usize),
}

// Looks for the name among the state's own name and the new names in its bucket.
fn seek_name(nexts: &NextStates<'_>, rooms: &Rooms<'_>, q: usize) -> Seek
    requires room { length rooms.now.names.now ≡ nexts.now.sizes.states }
    requires state { q < nexts.now.sizes.states }
    requires named { Named nexts.now.sizes.states rooms.now.names.now }
    requires done { Done (unmarked nexts.now) (numbers_of rooms.now) q }
    ensures { Sought (unmarked nexts.now) rooms.now.names.now q result }
{
    let own = number_at(rooms.names, q);
    if own == q {
        return Seek::Found(q);
    }
    if same_nexts(nexts, rooms.names, q, own) {
        return Seek::Found(own);
    }
    let bucket = bucket_of(nexts, rooms.names, q);
    // The links of a bucket, followed to their end; 0, which is never a new name, stands for none, since the links are lent numbers.
    let mut r = number_at(rooms.heads, bucket);
    while r != 0 {
        if number_at(rooms.names, r) == own && same_nexts(nexts, rooms.names, q, r) {
            return Seek::Found(r);
        }
        r = number_at(rooms.links, r);
    }
    Seek::New(bucket)
}

// Names a state in the next layer, and says whether it is a new name; a new name goes to the head of its bucket, and notes the layer of its birth and the name it had.
fn name_state(nexts: &NextStates<'_>, rooms: &mut Rooms<'_>, q: usize, layer: usize) -> bool
    requires room { length rooms.old.names.now ≡ nexts.now.sizes.states }
    requires state { (q < nexts.now.sizes.states) × (layer < 65536) }
    requires named { Named nexts.now.sizes.states rooms.old.names.now }
    requires done { Done (unmarked nexts.now) (numbers_of rooms.old) q }
    ensures kept { Kept rooms.old rooms.new }
    ensures advanced { Advanced (unmarked nexts.now) (numbers_of rooms.old) (numbers_of rooms.new) q layer result }
{
    match seek_name(nexts, rooms, q) {
        Seek::Found(r) => {
            rooms.laters[q] = r as u16;
            false
        }
        Seek::New(bucket) => {
            rooms.links[q] = rooms.heads[bucket];
            rooms.heads[bucket] = q as u16;
            rooms.laters[q] = q as u16;
            rooms.births[q] = layer as u16;
            rooms.parents[q] = rooms.names[q];
            true
        }
    }
}

// One round: the name of every state in the next layer; whether some name is new.
fn run_round(nexts: &NextStates<'_>, rooms: &mut Rooms<'_>, layer: usize) -> bool
    requires room { length rooms.old.names.now ≡ nexts.now.sizes.states }
    requires small { layer < 65536 }
    requires named { Named nexts.now.sizes.states rooms.old.names.now }
    ensures kept { Kept rooms.old rooms.new }
    ensures rounded { Rounded (unmarked nexts.now) (numbers_of rooms.old) (numbers_of rooms.new) layer nexts.now.sizes.states result }
{
    rooms.heads.fill(0);
    let mut changed = false;
    for q in 0..nexts.sizes.states {
        let fresh = name_state(nexts, rooms, q, layer);
        changed |= fresh;
    }
    changed
}

// Takes the names of the next layer over.
fn advance(rooms: &mut Rooms<'_>)
    ensures kept { Kept rooms.old rooms.new }
    ensures moved { Moved (numbers_of rooms.old) (numbers_of rooms.new) }
{
    // Borrowed as it is lent, so that its numbers are known to stay.
    let laters = &mut *rooms.laters;
    copy_over(laters, rooms.names);
}

// Runs rounds from the first names on until none finds a new name; gives how many did.
fn settle(
    nexts: &NextStates<'_>,
    names: &mut [u16],
    laters: &mut [u16],
    links: &mut [u16],
    births: &mut [u16],
    parents: &mut [u16],
    heads: &mut [u16],
) -> usize
    requires room { length names.old ≡ nexts.now.sizes.states }
    requires sized { Sized (length names.old) laters.old links.old births.old parents.old heads.old }
    requires begun { AtLayer (marked_by nexts.now names.old) 0 names.old births.old parents.old }
    ensures { Rested (marked_by nexts.now names.old) names.new births.new parents.new result }
{
    let mut rooms = Rooms {
        names,
        laters,
        links,
        births,
        parents,
        heads,
    };
    let mut rounds = 0;
    // No index over a list: a round says whether another is due.
    while run_round(nexts, &mut rooms, rounds + 1) {
        advance(&mut rooms);
        rounds += 1;
    }
    rounds
}

// Finds the classes of the states by layers: the last layer, with births and parents, and r.
pub fn find_classes(table: &Table<'_>, work: &mut [u16]) -> usize
    requires { 6 * table.now.nexts.sizes.states ≤ length work.old }
    ensures { Settled (machine table.now) work.old work.new result }
{
    first_names(&table.marks, work);
    let n = table.nexts.sizes.states;
    let (names, rest) = work.split_at_mut(n);
    let (laters, rest) = rest.split_at_mut(n);
    let (links, rest) = rest.split_at_mut(n);
    let (births, rest) = rest.split_at_mut(n);
    let (parents, rest) = rest.split_at_mut(n);
    let (heads, _) = rest.split_at_mut(n);
    settle(&table.nexts, names, laters, links, births, parents, heads)
}
