// What the rounds need of the lent work slice, by name: six lists of n numbers.
ghost use Rattle.std.specs.Prelude.{length};
ghost use Rattle.layering.specs.Sized.{Sized};

// The names of this layer, those of the next, for each new name the one before it in its bucket, the birth of each name, its parent, and the
// last new name of each bucket.
#[derive(Drop)]
pub struct Rooms<'a> {
    pub names: &'a mut [u16],
    pub laters: &'a mut [u16],
    pub links: &'a mut [u16],
    pub births: &'a mut [u16],
    pub parents: &'a mut [u16],
    pub heads: &'a mut [u16],
    pub ghost sized: { Sized (length names.now) laters.now links.now births.now parents.now heads.now },
}
