// The file of the rows, written at the front of the lent bytes.
ghost use Rattle.std.specs.Prelude.{◌≡◌, ℕ, ◌+◌, ◌*◌, ◌<◌, ◌≤◌, length};
ghost use Rattle.std.proofs.lemmas.List.Edits.{sets};
ghost use Rattle.counting.specs.Lists.{at};
ghost use Rattle.lending.specs.Memory.{written};
ghost use Rattle.automaton.specs.Quotient.{quotient_by};
ghost use Rattle.table.specs.Encoding.{field_of, encode};
ghost use Rattle.table.specs.Tables.{unmarked, machine_with};
ghost use Rattle.shrinking.specs.Written.{WritableBy, file_length, row_of, sizes_bytes, marks_bytes, row_bytes, rows_bytes};

use lending::{number_at, put_pair};
use table::fields::mark_of;
use table::tables::NextStates;

// The class name of each row, the row number of each class that has one, and the class of each state.
#[derive(Clone, Copy)]
pub struct RowLists<'a> {
    pub rows: &'a [u16],
    pub numbers: &'a [u16],
    pub classes: &'a [u16],
}

// The row number of the class of a state.
fn row_of(lists: &RowLists<'_>, q: usize) -> usize
    requires { (q < length lists.now.classes.now) × (at lists.now.classes.now q < length lists.now.numbers.now) }
    ensures value { result ≡ row_of lists.now q }
    ensures small { result < 65536 }
{
    let class = number_at(lists.classes, q);
    number_at(lists.numbers, class)
}

// Writes field 1, and the head of field 2.
#[tactic(auto, using(crate::proofs::Stores::sizes_stored))]
pub fn write_sizes(rows: usize, signs: usize, start: usize, out: &mut [u8])
    requires small { (rows < 65536) × (signs < 65536) × (start < 65536) }
    requires room { 12 ≤ length out.old }
    ensures { out.new ≡ sets out.old 0 (sizes_bytes rows signs start) }
{
    out[0] = 1;
    put_pair(out, 1, 6);
    put_pair(out, 3, rows);
    put_pair(out, 5, signs);
    put_pair(out, 7, start);
    out[9] = 2;
    put_pair(out, 10, rows);
}

// Writes the marks of the rows.
#[tactic(auto, using(crate::proofs::Stores::marks_none, crate::proofs::Stores::marks_more))]
fn write_marks(marks: &[u8], rows: &[u16], out: &mut [u8])
    requires listed { (i : ℕ) → i < length rows.now → at rows.now i < length marks.now }
    requires room { 12 + length rows.now ≤ length out.old }
    ensures { out.new ≡ sets out.old 12 (marks_bytes marks.now rows.now (length rows.now)) }
{
    for i in 0..rows.len() {
        let place = 12 + i;
        out[place] = mark_of(marks, number_at(rows, i));
    }
}

// Writes the next states of one row.
#[tactic(auto, using(crate::proofs::Stores::row_none, crate::proofs::Stores::row_more))]
fn write_row(nexts: &NextStates<'_>, lists: &RowLists<'_>, i: usize, out: &mut [u8])
    requires writable { WritableBy (unmarked nexts.now) lists.now.rows.now lists.now.numbers.now lists.now.classes.now }
    requires row { i < length lists.now.rows.now }
    requires room { file_length (length lists.now.rows.now) nexts.now.sizes.signs ≤ length out.old }
    ensures { out.new ≡ sets out.old (12 + length lists.now.rows.now + 3 + 2 * (i * nexts.now.sizes.signs)) (row_bytes (unmarked nexts.now) lists.now i nexts.now.sizes.signs) }
{
    let signs = nexts.sizes.signs;
    let state = number_at(lists.rows, i);
    let from = 12 + lists.rows.len() + 3 + 2 * (i * signs);
    for a in 0..signs {
        let row = row_of(lists, nexts.next_of(state, a));
        put_pair(out, from + 2 * a, row);
    }
}

// Writes the head of field 3 and the next states of all rows.
fn write_rows(nexts: &NextStates<'_>, lists: &RowLists<'_>, out: &mut [u8])
    requires writable { WritableBy (unmarked nexts.now) lists.now.rows.now lists.now.numbers.now lists.now.classes.now }
    requires room { file_length (length lists.now.rows.now) nexts.now.sizes.signs ≤ length out.old }
    ensures { out.new ≡ sets out.old (12 + length lists.now.rows.now) (field_of 3 (rows_bytes (unmarked nexts.now) lists.now (length lists.now.rows.now))) }
{
    let rows = lists.rows.len();
    let tag = 12 + rows;
    out[tag] = 3;
    put_pair(out, tag + 1, 2 * (rows * nexts.sizes.signs));
    for i in 0..rows {
        write_row(nexts, lists, i, out);
    }
}

// Writes the file of the rows. Of the marks it asks only how many there are, so it takes no `Table`.
#[tactic(auto, using(crate::proofs::Spelling::file_stored))]
pub fn write_file(marks: &[u8], nexts: &NextStates<'_>, lists: &RowLists<'_>, out: &mut [u8])
    requires marks { length marks.now ≡ nexts.now.sizes.states }
    requires writable { WritableBy (machine_with nexts.now marks.now) lists.now.rows.now lists.now.numbers.now lists.now.classes.now }
    requires room { file_length (length lists.now.rows.now) nexts.now.sizes.signs ≤ length out.old }
    ensures { out.new ≡ written (encode (quotient_by (machine_with nexts.now marks.now) lists.now.classes.now lists.now.rows.now)) out.old }
{
    let start = row_of(lists, nexts.sizes.start);
    write_sizes(lists.rows.len(), nexts.sizes.signs, start, out);
    write_marks(marks, lists.rows, out);
    write_rows(nexts, lists, out);
}
