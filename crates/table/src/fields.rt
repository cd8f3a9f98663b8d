// The fields of a file: where the body of each stands, the part of the file that it is, and the table that they make.
ghost use Rattle.std.specs.Prelude.{◌≡◌, ◌+◌, ◌*◌, ◌<◌, ◌≤◌, length, get_or};
ghost use Rattle.lending.specs.Pairs.{pair_at};
ghost use Rattle.table.specs.Rows.{InRange};
ghost use Rattle.table.specs.Accepted.{Good};
ghost use Rattle.table.specs.Bodies.{body_in, body_of, PartOf, FieldOf};
ghost use Rattle.table.specs.Tables.{TableIn};

use crate::answer::{Part, Refusal, Sizes};
use crate::judging::judge;
use crate::tables::{Marks, NextStates, Table};
use lending::pair_at;

// Where the body of a field stands, of a file of these sizes, which the judging gave. Here and below a field is asked by its number and not by an enum, and the answer for any other is the empty part, since C asks with any number:
// `body_of` and `FieldOf` promise it.
pub fn part_in(sizes: Sizes, number: usize) -> Part
    requires { InRange sizes.states sizes.signs }
    ensures { result ≡ body_in sizes.states sizes.signs number }
{
    match number {
        1 => Part {
            place: 3,
            length: 6,
        },
        2 => Part {
            place: 12,
            length: sizes.states,
        },
        3 => Part {
            place: 12 + sizes.states + 3,
            length: 2 * (sizes.states * sizes.signs),
        },
        _ => Part::default(),
    }
}

// Where the body of a field stands, of any file: the empty part at the start where the file is refused or has no such field.
pub fn part_of(file: &[u8], number: usize) -> Part
    ensures { result ≡ body_of file.now number }
{
    match judge(file) {
        Ok(sizes) => part_in(sizes, number),
        Err(_) => Part::default(),
    }
}

// A part of the file, handed back.
pub fn slice_of(file: &[u8], place: usize, size: usize) -> &[u8]
    requires { place + size ≤ length file.now }
    ensures { PartOf file.entry place size result }
{
    let end = place + size;
    &file[place..end]
}

// The body of a field of a file that is accepted with these sizes. Judges nothing.
pub fn field_of(file: &[u8], sizes: Sizes, number: usize) -> &[u8]
    requires { Good file.now sizes }
    ensures { PartOf file.entry (body_in sizes.states sizes.signs number).place (body_in sizes.states sizes.signs number).length result }
{
    let part = part_in(sizes, number);
    slice_of(file, part.place, part.length)
}

// The body of field 1, 2 or 3 as the part of the lent file where it stands; the empty part at its start for a refused file or any
// other number.
pub fn field(file: &[u8], number: usize) -> &[u8]
    ensures { FieldOf file.entry number result }
{
    let part = part_of(file, number);
    slice_of(file, part.place, part.length)
}

// The mark of a state, in the body of field 2.
pub fn mark_of(marks: &[u8], q: usize) -> u8
    requires { q < length marks.now }
    ensures { result ≡ get_or marks.now q 0 }
{
    marks[q]
}

// The next state of a state under a sign, in the body of field 3.
pub fn next_of(nexts: &[u8], signs: usize, q: usize, a: usize) -> usize
    requires { 2 * (q * signs + a) + 1 < length nexts.now }
    ensures value { result ≡ pair_at nexts.now (2 * (q * signs + a)) }
    ensures small { result < 65536 }
{
    pair_at(nexts, 2 * (q * signs + a))
}

// The table in a file, or the refusal of the file. Judges once.
pub fn table_in(file: &[u8]) -> Result<Table<'_>, Refusal>
    ensures { TableIn file.now result }
{
    let sizes = judge(file)?;
    let marks = Marks {
        bytes: field_of(file, sizes, 2),
    };
    let nexts = NextStates {
        sizes,
        bytes: field_of(file, sizes, 3),
    };
    Ok(Table { marks, nexts })
}
