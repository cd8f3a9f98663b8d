// Asks the proved calls about a file, and says whether they answer what is due. The lent memory is enough for nine states.
use layering::layers::{Counts, layers};
use reporting::{Numbers, report};
use shrinking::shrinks::shrink;
use splitting::runs::{Tally, run};
use splitting::starts::fresh;
use table::answer::Refusal;
use table::judging::judge;
use telling::words::tell;

// Whether the file is refused with this number at this place: the cases give numbers, as the table of refusals does.
pub(crate) fn is_refused(file: &[u8], number: usize, place: usize) -> bool {
    judge(file).is_err_and(|refusal| refusal.kind.number() == number && refusal.place == place)
}

// Whether the file is accepted, with n and k.
pub(crate) fn is_accepted(file: &[u8], states: usize, signs: usize) -> bool {
    judge(file).is_ok_and(|sizes| sizes.states == states && sizes.signs == signs)
}

// Whether the layered call gives these class names, m and r.
pub(crate) fn classes_are(file: &[u8], names: &[u16], classes: usize, rounds: usize) -> bool {
    let mut work = [0u16; 144];
    let mut found = [0u16; 9];
    let answer = layers(file, &mut work, &mut found);
    answer == Ok(Counts { classes, rounds }) && found.starts_with(names)
}

// A full splitting from fresh lists.
fn full_splitting(file: &[u8]) -> Result<Tally, Refusal> {
    let mut class = [0u16; 9];
    let mut pending = [0u16; 9];
    let mut work = [0u16; 144];
    fresh(file, &mut class, &mut pending)?;
    run(file, 65535, &mut class, &mut pending, &mut work)
}

// Whether a full splitting makes so many takes.
pub(crate) fn takes_are(file: &[u8], takes: usize) -> bool {
    full_splitting(file).is_ok_and(|tally| tally.takes == takes)
}

// Whether a full splitting makes so many takes, and looks at so many entries.
pub(crate) fn splitting_is(file: &[u8], takes: usize, entries: usize) -> bool {
    full_splitting(file) == Ok(Tally { takes, entries })
}

// Whether a run of one take makes this many, and looks at so many entries.
fn one_take_is(
    file: &[u8],
    class: &mut [u16],
    pending: &mut [u16],
    takes: usize,
    entries: usize,
) -> bool {
    let mut work = [0u16; 144];
    run(file, 1, class, pending, &mut work) == Ok(Tally { takes, entries })
}

// Whether takes made one by one from fresh lists look at these entries, and none is left after them.
pub(crate) fn takes_look_at(file: &[u8], due: &[usize]) -> bool {
    let mut class = [0u16; 9];
    let mut pending = [0u16; 9];
    if fresh(file, &mut class, &mut pending).is_err() {
        return false;
    }
    for entries in due {
        if !one_take_is(file, &mut class, &mut pending, 1, *entries) {
            return false;
        }
    }
    one_take_is(file, &mut class, &mut pending, 0, 0)
}

// Whether the two states part by this word.
pub(crate) fn part_by(file: &[u8], p: usize, q: usize, word: &[u8]) -> bool {
    let mut work = [0u16; 144];
    let mut found = [0u8; 9];
    let answer = tell(file, p, q, &mut work, &mut found);
    answer == Ok(Some(word.len())) && found.starts_with(word)
}

// Whether the two states are alike.
pub(crate) fn are_alike(file: &[u8], p: usize, q: usize) -> bool {
    let mut work = [0u16; 144];
    let mut found = [0u8; 9];
    tell(file, p, q, &mut work, &mut found) == Ok(None)
}

// Whether the file shrinks to these bytes.
pub(crate) fn shrinks_to(file: &[u8], due: &[u8]) -> bool {
    let mut work = [0u16; 144];
    let mut out = [0u8; 64];
    let answer = shrink(file, &mut work, &mut out);
    answer.is_ok_and(|size| size.length == due.len()) && out.starts_with(due)
}

// Whether the shrunk file has so many rows.
pub(crate) fn rows_are(file: &[u8], rows: usize) -> bool {
    let mut work = [0u16; 144];
    let mut out = [0u8; 64];
    shrink(file, &mut work, &mut out).is_ok_and(|size| size.rows == rows)
}

// Whether the report has these numbers and these class names.
pub(crate) fn report_is(file: &[u8], due: Numbers, names: &[u16]) -> bool {
    let mut class = [0u16; 9];
    let mut pending = [0u16; 9];
    let mut work = [0u16; 144];
    let mut out = [0u8; 64];
    let answer = report(file, &mut work, &mut class, &mut pending, &mut out);
    answer == Ok(due) && class.starts_with(names)
}
