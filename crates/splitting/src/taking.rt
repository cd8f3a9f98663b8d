// One take: the published step on the lists in their rooms.
ghost use Rattle.std.specs.Prelude.{◌≡◌, false, ℕ, ◌<◌};
ghost use Rattle.counting.specs.Lists.{at};
ghost use Rattle.refining.specs.Lists.{WellFormed};
ghost use Rattle.table.specs.Tables.{unmarked};
ghost use Rattle.splitting.specs.Work.{lists_of, Ready, Taken};

use crate::hits::{count_hits, settle_hits};
use crate::parts::{adopt, rename, share};
use crate::rooms::Rooms;
use lending::number_at;
use table::tables::NextStates;

// What a take did: the entries looked at, and whether a class was split.
#[derive(Clone, Copy, Debug, PartialEq, Eq)]
pub struct Look {
    pub entries: usize,
    pub split: bool,
}

// Takes the first class that waits, with its sign.
pub fn take_one(nexts: &NextStates<'_>, rooms: &mut Rooms, q: usize) -> Look
    requires formed { WellFormed nexts.now.sizes.states nexts.now.sizes.signs (lists_of rooms.old) }
    requires ready { Ready nexts.now.sizes.states rooms.old }
    requires waits { (q < nexts.now.sizes.states) × (at rooms.old.pendings.now q ≡ 0 → ⊥) × ((p : ℕ) → p < q → at rooms.old.pendings.now p ≡ 0) }
    ensures taken { Taken (unmarked nexts.now) rooms.old rooms.new result.entries }
    ensures idle { result.split ≡ false → (p : ℕ) → p < q → at rooms.new.pendings.now p ≡ 0 }
{
    // Each room by itself, since a pass uses several at once.
    let sizes = &mut *rooms.sizes;
    let firsts = &mut *rooms.firsts;
    let gones = &mut *rooms.gones;
    let renamed = &mut *rooms.renamed;
    let leds = &mut *rooms.leds;
    let touched = &mut *rooms.touched;
    let classes = &mut *rooms.classes;
    let pendings = &mut *rooms.pendings;
    let a = number_at(pendings, q) - 1;
    pendings[q] = a as u16;
    let entries = count_hits(nexts, classes, leds, touched, q, a);
    let split = settle_hits(sizes, leds, touched, entries);
    if split {
        rename(nexts, classes, firsts, gones, renamed, q, a);
        share(sizes, firsts, gones, pendings, nexts.sizes.signs);
        adopt(classes, renamed);
    }
    Look { entries, split }
}
