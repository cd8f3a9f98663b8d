// The rows: the classes that hold a reached state, numbered in rising order.
ghost use Rattle.std.specs.Prelude.{◌≡◌, ℕ, ◌*◌, ◌<◌, ◌≤◌, length};
ghost use Rattle.counting.specs.Lists.{at};
ghost use Rattle.shrinking.specs.Reached.{flagged_by, Flagged, NumberedBy, Numbered};

use lending::number_at;

// Flags the class of a state that is marked.
#[tactic(auto, using(crate::proofs::Flagging::one_state))]
fn flag_class(reached: &[u16], classes: &[u16], flags: &mut [u16], q: usize)
    requires { (q < length reached.now) × (q < length classes.now) × (at classes.now q < length flags.old) }
    ensures { flags.new ≡ flagged_by reached.now classes.now q flags.old }
{
    if number_at(reached, q) == 1 {
        flags[number_at(classes, q)] = 1;
    }
}

// Flags every class that holds a marked state.
#[tactic(auto, using(crate::proofs::Flagging::flags_none, crate::proofs::Flagging::flags_more))]
pub fn flag_classes(reached: &[u16], classes: &[u16], flags: &mut [u16])
    requires sized { length classes.now ≡ length reached.now }
    requires classed { (q : ℕ) → q < length reached.now → at classes.now q < length flags.old }
    requires unflagged { (c : ℕ) → c < length flags.old → at flags.old c ≡ 0 }
    ensures { Flagged reached.now classes.now (length reached.now) flags.new }
{
    for q in 0..reached.len() {
        flag_class(reached, classes, flags, q);
    }
}

// Numbers a class that is flagged as the next row, and lists its name; gives how many rows there are then.
fn number_class(
    flags: &[u16],
    numbers: &mut [u16],
    rows: &mut [u16],
    c: usize,
    count: usize,
) -> usize
    requires few { length flags.now ≤ 1024 }
    requires sized { (length numbers.old ≡ length flags.now) × (length rows.old ≡ length flags.now) }
    requires within { (c < length flags.now) × (count ≤ c) }
    ensures { NumberedBy flags.now c count numbers.old numbers.new rows.old rows.new result }
{
    if number_at(flags, c) == 1 {
        numbers[c] = count as u16;
        rows[count] = c as u16;
        return count + 1;
    }
    count
}

// Numbers the flagged classes in rising order; gives how many there are.
pub fn number_rows(flags: &[u16], numbers: &mut [u16], rows: &mut [u16]) -> usize
    requires few { length flags.now ≤ 1024 }
    requires sized { (length numbers.old ≡ length flags.now) × (length rows.old ≡ length flags.now) }
    ensures { Numbered flags.now (length flags.now) numbers.new rows.new result }
{
    let mut count = 0;
    for c in 0..flags.len() {
        count = number_class(flags, numbers, rows, c, count);
    }
    count
}
