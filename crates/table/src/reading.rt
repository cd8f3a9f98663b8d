// The steps that read a file, field after field. Each gives a field or a refusal, and the next goes on only with a field.
ghost use Rattle.std.specs.Prelude.{◌≡◌, ◌*◌, ◌^◌, ◌<◌, ◌≤◌, length, get_or, ltb, leb};
ghost use Rattle.counting.specs.Least.{IsFirst};
ghost use Rattle.lending.specs.Pairs.{pair_at};
ghost use Rattle.table.specs.Answers.{told, told_part};
ghost use Rattle.table.specs.Judging.{field_due, outside, sizes_due, marks_due, nexts_due};

use crate::answer::{Kind, Part, Refusal, Sizes};
use lending::pair_at;

// The field that is due at a place, with the tag and the length required of it.
pub fn read_field(file: &[u8], at: usize, tag: u8, size: usize) -> Result<Part, Refusal>
    requires { (at < 2 ^ 32) × (size < 2 ^ 32) }
    ensures { told_part result ≡ field_due file.now at tag size }
{
    let body = at + 3;
    if file.len() < body {
        return Err(Refusal {
            kind: Kind::Short,
            place: file.len(),
        });
    }
    if file[at] != tag {
        return Err(Refusal {
            kind: Kind::Tag,
            place: at,
        });
    }
    let length_at = at + 1;
    let found = pair_at(file, length_at);
    let end = body + size;
    if found != size {
        return Err(Refusal {
            kind: Kind::Length,
            place: length_at,
        });
    }
    if file.len() < end {
        return Err(Refusal {
            kind: Kind::Short,
            place: file.len(),
        });
    }
    Ok(Part {
        place: body,
        length: size,
    })
}

// n, k or n × k outside its range.
pub fn is_outside(n: usize, k: usize) -> bool
    ensures { result ≡ outside n k }
{
    if n == 0 {
        return true;
    }
    if 1024 < n {
        return true;
    }
    if k == 0 {
        return true;
    }
    if 64 < k {
        return true;
    }
    32000 < n * k
}

// Field 1: n, k and start.
pub fn read_sizes(file: &[u8]) -> Result<Sizes, Refusal>
    ensures { told result ≡ sizes_due file.now }
{
    read_field(file, 0, 1, 6)?;
    let states = pair_at(file, 3);
    let signs = pair_at(file, 5);
    let start = pair_at(file, 7);
    let outside = is_outside(states, signs);
    if outside {
        return Err(Refusal {
            kind: Kind::Range,
            place: 3,
        });
    }
    if states <= start {
        return Err(Refusal {
            kind: Kind::Start,
            place: 7,
        });
    }
    Ok(Sizes {
        states,
        signs,
        start,
    })
}

// The first of some marks that is neither 0 nor 1.
pub fn first_bad_mark(marks: &[u8]) -> Option<usize>
    ensures { IsFirst (length marks.now) (λ q. ltb 1 (get_or marks.now q 0)) result }
{
    marks.iter().position(|mark| 1 < *mark)
}

// Field 2: n marks.
pub fn read_marks(file: &[u8], n: usize) -> Result<Part, Refusal>
    requires { n ≤ 1024 }
    ensures { told_part result ≡ marks_due file.now n }
{
    let part = read_field(file, 9, 2, n)?;
    let from = part.place;
    let end = from + n;
    match first_bad_mark(&file[from..end]) {
        None => Ok(part),
        Some(bad) => Err(Refusal {
            kind: Kind::Mark,
            place: from + bad,
        }),
    }
}

// The first of m next states, which more bytes may follow, that is n or more.
pub fn first_bad_next(nexts: &[u8], n: usize, m: usize) -> Option<usize>
    requires { (2 * m ≤ length nexts.now) × (m ≤ 32000) }
    ensures { IsFirst m (λ i. leb n (pair_at nexts.now (2 * i))) result }
{
    for i in 0..m {
        if n <= pair_at(nexts, 2 * i) {
            return Some(i);
        }
    }
    None
}

// Field 3: m next states. Beside `read_marks` a function of its own, as is the search above: the test, its width, the refusal and its place all differ, and one function for both would take them as four parameters.
pub fn read_nexts(file: &[u8], n: usize, m: usize) -> Result<Part, Refusal>
    requires { (n ≤ 1024) × (m ≤ 32000) }
    ensures { told_part result ≡ nexts_due file.now n m }
{
    let size = 2 * m;
    let part = read_field(file, 12 + n, 3, size)?;
    let from = part.place;
    let end = from + size;
    match first_bad_next(&file[from..end], n, m) {
        None => Ok(part),
        Some(bad) => Err(Refusal {
            kind: Kind::Next,
            place: from + 2 * bad,
        }),
    }
}
