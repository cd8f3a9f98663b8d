// The rooms of a take: eight lists in the work slice, n numbers each. A lifetime for each, since with one for all the proof did not close: it then knows of the slice no more than its length once the rooms are given back.

// The size of each class; the first state that goes from it, and 0, which never is one, where none does, since these are lent numbers; how many go; the new name of each state; how many states of each class lead into the class taken;
// the classes of those that do; the class of each state; and its pending.
#[derive(Drop)]
pub struct Rooms<'sizes, 'firsts, 'gones, 'renamed, 'leds, 'touched, 'classes, 'pendings> {
    pub sizes: &'sizes mut [u16],
    pub firsts: &'firsts mut [u16],
    pub gones: &'gones mut [u16],
    pub renamed: &'renamed mut [u16],
    pub leds: &'leds mut [u16],
    pub touched: &'touched mut [u16],
    pub classes: &'classes mut [u16],
    pub pendings: &'pendings mut [u16],
}
