// The fresh start of a splitting.
ghost use Rattle.std.specs.Prelude.{◌≡◌, not, ◌&&◌, [], ◌∷◌, ℕ, ◌-◌, ◌*◌, ◌≤◌, ◌<◌, Some, None, eqb, leb, length};
ghost use Rattle.counting.specs.Lists.{at};
ghost use Rattle.counting.specs.Least.{pick};
ghost use Rattle.counting.specs.Counts.{count};
ghost use Rattle.table.specs.Leaving.{left};
ghost use Rattle.splitting.specs.Filling.{Filled, FreshFilled};
ghost use Rattle.splitting.specs.Starting.{StartedIn};
ghost use Rattle.splitting.specs.StartCall.{told_start, start_leaves};

use layering::first::mark_names;
use lending::{clear, one_of};
use table::answer::{Kind, Refusal};
use table::fields::table_in;
use table::tables::Marks;

// How many states accept.
#[tactic(auto, using(counting::proofs::Tallies::count_most), unfolding(counting::specs::Counts::count, counting::specs::Least::pick))]
fn count_accepting(marks: &Marks<'_>) -> usize
    ensures { result ≡ count (length marks.now.bytes.now) (λ x. eqb (at marks.now.bytes.now x) 1) }
{
    let mut accepting = 0;
    for q in 0..marks.bytes.len() {
        accepting += usize::from(marks.mark_of(q) == 1);
    }
    accepting
}

// The mark of the class that waits: of two classes the accepting one where it isn't larger; none where there is one class.
#[tactic(auto, unfolding(counting::specs::Least::pick))]
fn due_mark(accepting: usize, n: usize) -> Option<u8>
    requires { accepting ≤ n }
    ensures { result ≡ pick (not (eqb accepting 0) && not (eqb (n - accepting) 0)) (Some (pick (leb accepting (n - accepting)) 1 0)) None }
{
    let other = n - accepting;
    if accepting == 0 || other == 0 {
        return None;
    }
    Some(u8::from(accepting <= other))
}

// Writes the pending of each state: all signs for the first state with the mark due, else none.
#[tactic(auto, unfolding(counting::specs::Counts::any, counting::specs::Least::pick))]
fn fill_pending(marks: &Marks<'_>, pending: &mut [u16], signs: usize, due: u8)
    requires room { length marks.now.bytes.now ≤ length pending.old }
    requires small { signs ≤ 64 }
    ensures { Filled signs due (length marks.now.bytes.now) marks.now.bytes.now pending.old pending.new }
{
    let mut seen = false;
    for q in 0..marks.bytes.len() {
        let has = marks.mark_of(q) == due;
        let waits = has && !seen;
        pending[q] = one_of(waits, signs, 0) as u16;
        seen |= has;
    }
}

// Writes the pending of the fresh lists.
pub fn fill_fresh(marks: &Marks<'_>, pending: &mut [u16], signs: usize)
    requires small { signs ≤ 64 }
    requires room { length marks.now.bytes.now ≤ length pending.old }
    ensures { FreshFilled (length marks.now.bytes.now) signs marks.now.bytes.now pending.old pending.new }
{
    let n = marks.bytes.len();
    match due_mark(count_accepting(marks), n) {
        Some(due) => fill_pending(marks, pending, signs, due),
        None => clear(pending, n),
    }
}

// The fresh lists. Refuses 1 to 8 for the file, 12 at n.
pub fn fresh(file: &[u8], class: &mut [u16], pending: &mut [u16]) -> Result<(), Refusal>
    ensures { left (told_start result) (class.new ∷ pending.new ∷ []) ≡ start_leaves file.now class.old pending.old }
{
    let table = table_in(file)?;
    let sizes = table.nexts.sizes;
    let n = sizes.states;
    if class.len() < n || pending.len() < n {
        return Err(Refusal {
            kind: Kind::Room,
            place: n,
        });
    }
    mark_names(&table.marks, class);
    fill_fresh(&table.marks, pending, sizes.signs);
    Ok(())
}

// The fresh lists in the work slice: the classes from 6 × n on, and what waits from 7 × n on, the places that `StartedIn` names.
pub fn start_in(marks: &Marks<'_>, signs: usize, work: &mut [u16])
    requires small { signs ≤ 64 }
    requires room { 8 * length marks.now.bytes.now ≤ length work.old }
    ensures { StartedIn (length marks.now.bytes.now) signs marks.now.bytes.now work.old work.new }
{
    let n = marks.bytes.len();
    let classes = 6 * n;
    let pending = 7 * n;
    let end = 8 * n;
    mark_names(marks, &mut work[classes..pending]);
    fill_fresh(marks, &mut work[pending..end], signs);
}
