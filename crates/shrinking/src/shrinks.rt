// The call: the shrunk file at the front of the lent bytes.
ghost use Rattle.std.specs.Prelude.{◌≡◌, [], ◌∷◌, ◌*◌, ◌≤◌, length};
ghost use Rattle.table.specs.Leaving.{left};
ghost use Rattle.table.specs.Tables.{machine};
ghost use Rattle.shrinking.specs.Found.{RowsFound};
ghost use Rattle.shrinking.specs.Calls.{told, shrink_leaves};

use crate::reaching::find_reached;
use crate::rows::{flag_classes, number_rows};
use crate::writing::{RowLists, write_file};
use lending::clear;
use splitting::runs::run_takes;
use splitting::starts::start_in;
use table::answer::{Kind, Refusal};
use table::fields::table_in;
use table::tables::Table;

// The rows of the shrunk file, and its length.
#[derive(Clone, Copy, Debug, PartialEq, Eq)]
pub struct Size {
    pub rows: usize,
    pub length: usize,
}

// The rows found, and the takes of the splitting that found the classes.
#[derive(Clone, Copy, Debug, PartialEq, Eq)]
pub struct Rows {
    pub count: usize,
    pub takes: usize,
}

// Finds the classes by full splitting from fresh lists in the work slice, the states that are reached, and the rows. The classes stand from 6 × n on; the first
// 4 × n numbers then become, n each, the marks of the reached states, the flags of their classes, the row numbers and the rows.
pub fn find_rows(table: &Table<'_>, work: &mut [u16]) -> Rows
    requires { 8 * table.now.nexts.sizes.states ≤ length work.old }
    ensures { RowsFound (machine table.now) work.old work.new result.count result.takes }
{
    let n = table.nexts.sizes.states;
    start_in(&table.marks, table.nexts.sizes.signs, work);
    let takes = run_takes(&table.nexts, 65535, work).takes;
    // Where `RowsFound` and `RanIn` say that they stand.
    let (lists, rest) = work.split_at_mut(4 * n);
    let (reached, lists) = lists.split_at_mut(n);
    let (flags, lists) = lists.split_at_mut(n);
    let (numbers, rows) = lists.split_at_mut(n);
    let rest = &rest[..];
    let classes = &rest[2 * n..3 * n];
    find_reached(&table.nexts, reached);
    flags.fill(0);
    flag_classes(reached, classes, flags);
    let count = number_rows(flags, numbers, rows);
    Rows { count, takes }
}

// The shrunk file. Refuses 1 to 8 for the file, 11 at 16 × n, 12 at the length of the shrunk file.
pub fn shrink(file: &[u8], work: &mut [u16], out: &mut [u8]) -> Result<Size, Refusal>
    ensures { left (told result) (work.new ∷ out.new ∷ []) ≡ shrink_leaves file.now work.old out.old }
{
    let table = table_in(file)?;
    let n = table.nexts.sizes.states;
    let room = 16 * n;
    if work.len() < room {
        return Err(Refusal {
            kind: Kind::Work,
            place: room,
        });
    }
    let rows = find_rows(&table, work).count;
    let length = 12 + rows + 3 + 2 * (rows * table.nexts.sizes.signs);
    if out.len() < length {
        clear(work, room);
        return Err(Refusal {
            kind: Kind::Room,
            place: length,
        });
    }
    // Where `RowsFound` says that they stand.
    let lent = &work[..];
    let lists = RowLists {
        rows: &lent[3 * n..3 * n + rows],
        numbers: &lent[2 * n..3 * n],
        classes: &lent[6 * n..7 * n],
    };
    write_file(table.marks.bytes, &table.nexts, &lists, out);
    clear(work, room);
    Ok(Size { rows, length })
}
