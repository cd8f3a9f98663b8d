// All layers from the last one: a state's name in a layer before, by the births and parents of names, and the layer in which two states part.
ghost use Rattle.std.specs.Prelude.{◌≡◌, ◌*◌, length};

use lending::number_at;

// The last layer: the name of each state, and of each name the layer in which it is born and the name it then parts from, its parent.
#[derive(Clone, Copy)]
pub struct LastLayer<'a> {
    pub names: &'a [u16],
    pub births: &'a [u16],
    pub parents: &'a [u16],
    pub ghost sized: { (length births.now ≡ length names.now) × (length parents.now ≡ length names.now) },
}

impl LastLayer<'_> {
    ghost use Rattle.std.specs.Prelude.{◌≡◌, ◌≢◌, ◌*◌, ◌<◌, eqb, ltb};
    ghost use Rattle.counting.specs.Least.{pick};
    ghost use Rattle.telling.specs.Kept.{states, named, born, from, Kept, NameIn, PartedIn};

    // The name of a state in a layer: from its last name to the parent, while that is born later.
    pub fn name_in(&self, x: usize, layer: usize) -> usize
        requires state { x < states self.now }
        requires kept { Kept self.now }
        ensures { NameIn self.now x layer result }
    {
        let mut name = number_at(self.names, x);
        // No index is counted: the parents are followed.
        while layer < number_at(self.births, name) {
            name = number_at(self.parents, name);
        }
        name
    }

    // The name just before a layer of a state that has this name in it: the parent of a name that is born in the layer.
    #[tactic(auto, unfolding(counting::specs::Least::pick))]
    fn name_before(&self, name: usize, layer: usize) -> usize
        requires { name < states self.now }
        ensures { result ≡ pick (eqb (born self.now name) layer) (from self.now name) name }
    {
        if number_at(self.births, name) == layer {
            number_at(self.parents, name)
        } else {
            name
        }
    }

    // The later of two births.
    #[tactic(auto, unfolding(counting::specs::Least::pick))]
    fn later_birth(&self, one: usize, other: usize) -> usize
        requires { (one < states self.now) × (other < states self.now) }
        ensures { result ≡ pick (ltb (born self.now one) (born self.now other)) (born self.now other) (born self.now one) }
    {
        let birth = number_at(self.births, one);
        let later = number_at(self.births, other);
        if birth < later { later } else { birth }
    }

    // The first layer in which two states have different names: from their last names back to the birth by which they part.
    pub fn parted_in(&self, p: usize, q: usize) -> usize
        requires states { (p < states self.now) × (q < states self.now) }
        requires kept { Kept self.now }
        requires apart { named self.now p ≢ named self.now q }
        ensures { PartedIn self.now p q result }
    {
        let mut one = number_at(self.names, p);
        let mut other = number_at(self.names, q);
        // No index is counted: the way ends in a layer, at the latest in layer 0.
        loop {
            let layer = self.later_birth(one, other);
            if layer == 0 {
                return 0;
            }
            one = self.name_before(one, layer);
            other = self.name_before(other, layer);
            if one == other {
                return layer;
            }
        }
    }
}
