// Layer 0: the first names, by the marks, in one pass.
ghost use Rattle.std.specs.Prelude.{◌*◌, ◌≤◌, length};
ghost use Rattle.layering.specs.Layered.{FirstNamed, Begun};

use table::tables::Marks;

// Names each state by the first state of its mark.
pub fn mark_names(marks: &Marks<'_>, names: &mut [u16])
    requires { length marks.now.bytes.now ≤ length names.old }
    ensures { FirstNamed marks.now.bytes.now (length marks.now.bytes.now) names.old names.new }
{
    let mut zero = None;
    let mut one = None;
    for q in 0..marks.bytes.len() {
        let name = if marks.mark_of(q) == 0 {
            let first = zero.unwrap_or(q);
            zero = Some(first);
            first
        } else {
            let first = one.unwrap_or(q);
            one = Some(first);
            first
        };
        names[q] = name as u16;
    }
}

// Names each state by the first state of its mark, and notes that these names are born in layer 0.
#[tactic(auto, using(crate::proofs::Beginning::begun_born, crate::proofs::Beginning::unborn_filled))]
pub fn first_names(marks: &Marks<'_>, work: &mut [u16])
    requires { 6 * length marks.now.bytes.now ≤ length work.old }
    ensures { Begun (length marks.now.bytes.now) marks.now.bytes.now work.old work.new }
{
    let n = marks.bytes.len();
    mark_names(marks, work);
    // Where `Begun` says that they stand.
    let births = &mut work[3 * n..4 * n];
    births.fill(0);
}
