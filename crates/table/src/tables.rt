// The table that stands in a file, lent from it: the marks, and the next states with their sizes. Who holds one holds what the judging found of it.
ghost use Rattle.std.specs.Prelude.{◌≡◌, length};
ghost use Rattle.table.specs.Encoding.{Held, Marked};

use crate::answer::Sizes;
use crate::fields::{mark_of, next_of};

// The body of field 2.
#[derive(Clone, Copy)]
pub struct Marks<'a> {
    pub bytes: &'a [u8],
    pub ghost marked: { Marked bytes.now },
}

// The body of field 3, with n, k and start.
#[derive(Clone, Copy)]
pub struct NextStates<'a> {
    pub sizes: Sizes,
    pub bytes: &'a [u8],
    pub ghost held: { Held sizes.states sizes.signs sizes.start bytes.now },
}

#[derive(Clone, Copy)]
pub struct Table<'a> {
    pub marks: Marks<'a>,
    pub nexts: NextStates<'a>,
    pub ghost sized: { length marks.bytes.now ≡ nexts.sizes.states },
}

impl Marks<'_> {
    ghost use Rattle.std.specs.Prelude.{◌≡◌, ◌<◌, length, get_or};

    // The mark of a state.
    pub fn mark_of(&self, q: usize) -> u8
        requires { q < length self.now.bytes.now }
        ensures { result ≡ get_or self.now.bytes.now q 0 }
    {
        mark_of(self.bytes, q)
    }
}

impl NextStates<'_> {
    ghost use Rattle.std.specs.Prelude.{◌≡◌, ◌+◌, ◌*◌, ◌<◌};
    ghost use Rattle.lending.specs.Pairs.{pair_at};

    // The next state of a state under a sign.
    pub fn next_of(&self, q: usize, a: usize) -> usize
        requires { (q < self.now.sizes.states) × (a < self.now.sizes.signs) }
        ensures value { result ≡ pair_at self.now.bytes.now (2 * (q * self.now.sizes.signs + a)) }
        ensures inside { result < self.now.sizes.states }
    {
        next_of(self.bytes, self.sizes.signs, q, a)
    }
}
