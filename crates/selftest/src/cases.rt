// The samples, table by table; those with a star are the twelve of `starred`.
ghost use Rattle.std.specs.Prelude.{◌≡◌, ◌+◌, ◌*◌, ◌<◌, ◌≤◌, length};

use crate::output::Output;
use crate::{asking, files, samples};
use reporting::Numbers;
use shrinking::writing::write_sizes;
use table::answer::Sizes;

pub fn t1_classes<P: Print>(output: &mut Output<'_, P>)
    requires { output.old.counts.passed + output.old.counts.failed + 3 ≤ 100 }
    ensures { output.new.counts.passed + output.new.counts.failed ≡ output.old.counts.passed + output.old.counts.failed + 3 }
{
    let t1 = files::t1_file();
    let classes = asking::classes_are(&t1, &[0, 1, 2, 2, 1], 3, 1);
    output.show("* T1: classes 0 1 2 2 1, m 3, r 1", classes);
    let takes = asking::takes_look_at(&t1, &[2, 4, 3, 0]);
    output.show("* T1: 4 takes looking at 2, 4, 3, 0 entries", takes);
    let numbers = Numbers {
        sizes: Sizes {
            states: 5,
            signs: 2,
            start: 0,
        },
        classes: 3,
        rounds: 1,
        takes: 4,
        entries: 9,
        rows: 3,
    };
    let reported = asking::report_is(&t1, numbers, &[0, 1, 2, 2, 1]);
    output.show("T1: the report, 5 2 0, 3 1 4 9 3, 0 1 2 2 1", reported);
}

pub fn t1_words<P: Print>(output: &mut Output<'_, P>)
    requires { output.old.counts.passed + output.old.counts.failed + 3 ≤ 100 }
    ensures { output.new.counts.passed + output.new.counts.failed ≡ output.old.counts.passed + output.old.counts.failed + 3 }
{
    let t1 = files::t1_file();
    output.show("* T1: 0 and 1 part by 0", asking::part_by(&t1, 0, 1, &[0]));
    output.show(
        "* T1: 0 and 2 part by the empty word",
        asking::part_by(&t1, 0, 2, b""),
    );
    output.show("* T1: 1 and 4 are alike", asking::are_alike(&t1, 1, 4));
}

pub fn t1_files<P: Print>(output: &mut Output<'_, P>)
    requires { output.old.counts.passed + output.old.counts.failed + 2 ≤ 100 }
    ensures { output.new.counts.passed + output.new.counts.failed ≡ output.old.counts.passed + output.old.counts.failed + 2 }
{
    let t1 = files::t1_file();
    let shrunk = samples::t1_shrunk();
    output.show("T1: a file of 40 bytes", asking::is_accepted(&t1, 5, 2));
    output.show("* T1: the shrunk file", asking::shrinks_to(&t1, &shrunk));
}

pub fn t2_cases<P: Print>(output: &mut Output<'_, P>)
    requires { output.old.counts.passed + output.old.counts.failed + 3 ≤ 100 }
    ensures { output.new.counts.passed + output.new.counts.failed ≡ output.old.counts.passed + output.old.counts.failed + 3 }
{
    let t2 = files::t2_file();
    let classes = asking::classes_are(&t2, &[0, 1, 2, 3, 4, 4, 6, 6, 8], 7, 2);
    output.show("* T2: classes 0 1 2 3 4 4 6 6 8, m 7, r 2", classes);
    output.show(
        "* T2: 0 and 2 part by 0 1",
        asking::part_by(&t2, 0, 2, &[0, 1]),
    );
    output.show("T2: 12 takes", asking::takes_are(&t2, 12));
}

pub fn t3_cases<P: Print>(output: &mut Output<'_, P>)
    requires { output.old.counts.passed + output.old.counts.failed + 3 ≤ 100 }
    ensures { output.new.counts.passed + output.new.counts.failed ≡ output.old.counts.passed + output.old.counts.failed + 3 }
{
    let t3 = files::t3_file();
    let classes = asking::classes_are(&t3, &[0, 1, 2, 3, 4, 5], 6, 4);
    output.show("* T3: six classes, r 4", classes);
    output.show(
        "* T3: 0 and 1 part by 0 0 0 0",
        asking::part_by(&t3, 0, 1, &[0, 0, 0, 0]),
    );
    let takes = asking::splitting_is(&t3, 10, 10);
    output.show("* T3: 10 takes, 10 entries", takes);
}

pub fn single_cases<P: Print>(output: &mut Output<'_, P>)
    requires { output.old.counts.passed + output.old.counts.failed + 1 ≤ 100 }
    ensures { output.new.counts.passed + output.new.counts.failed ≡ output.old.counts.passed + output.old.counts.failed + 1 }
{
    let single = files::single_file();
    let held = asking::takes_are(&single, 0) && asking::classes_are(&single, &[0], 1, 0);
    output.show(
        "* n 1, k 1, mark 0: no takes, r 0, one row",
        held && asking::rows_are(&single, 1),
    );
}

// Whether T1 with one byte changed is refused with this number at this place.
fn refused_with(changed: usize, byte: u8, number: usize, place: usize) -> bool
    requires { changed < 40 }
{
    let mut file = files::t1_file();
    file[changed] = byte;
    asking::is_refused(&file, number, place)
}

// Whether T1 with a byte behind it is refused at that byte.
fn refused_behind() -> bool {
    let mut file = [0u8; 41];
    files::write_table(&samples::t1_marks(), &samples::t1_nexts(), 2, &mut file);
    asking::is_refused(&file, 3, 40)
}

pub fn refused_heads<P: Print>(output: &mut Output<'_, P>)
    requires { output.old.counts.passed + output.old.counts.failed + 4 ≤ 100 }
    ensures { output.new.counts.passed + output.new.counts.failed ≡ output.old.counts.passed + output.old.counts.failed + 4 }
{
    output.show("empty file: 1 at 0", asking::is_refused(b"", 1, 0));
    output.show("01 00: 1 at 2", asking::is_refused(&[1, 0], 1, 2));
    output.show("T1 with first byte 02: 2 at 0", refused_with(0, 2, 2, 0));
    output.show("T1 with first length 5: 4 at 1", refused_with(2, 5, 4, 1));
}

pub fn refused_contents<P: Print>(output: &mut Output<'_, P>)
    requires { output.old.counts.passed + output.old.counts.failed + 5 ≤ 100 }
    ensures { output.new.counts.passed + output.new.counts.failed ≡ output.old.counts.passed + output.old.counts.failed + 5 }
{
    output.show("T1 with n 0: 5 at 3", refused_with(4, 0, 5, 3));
    output.show("T1 with start 5: 6 at 7", refused_with(8, 5, 6, 7));
    output.show("T1 with last mark 2: 7 at 16", refused_with(16, 2, 7, 16));
    output.show("T1 with last entry 5: 8 at 38", refused_with(39, 5, 8, 38));
    output.show("T1 with one byte more: 3 at 40", refused_behind());
}

// Whether a table of these sizes, all its marks and next states 0, is accepted.
fn in_range(states: usize, signs: usize) -> bool
    requires { (states ≤ 1024) × (signs ≤ 64) × (states * signs ≤ 32000) }
{
    let marks = [0u8; 1024];
    let nexts = [0u16; 32000];
    let entries = states * signs;
    let mut file = [0u8; 65536];
    let length = files::write_table(&marks[..states], &nexts[..entries], signs, &mut file);
    asking::is_accepted(&file[..length], states, signs)
}

// Whether these sizes alone are refused.
fn outside(states: usize, signs: usize) -> bool
    requires { (states ≤ 1024) × (signs ≤ 64) }
{
    let mut file = [0u8; 12];
    write_sizes(states, signs, 0, &mut file);
    asking::is_refused(&file, 5, 3)
}

pub fn range_cases<P: Print>(output: &mut Output<'_, P>)
    requires { output.old.counts.passed + output.old.counts.failed + 4 ≤ 100 }
    ensures { output.new.counts.passed + output.new.counts.failed ≡ output.old.counts.passed + output.old.counts.failed + 4 }
{
    output.show("500 times 64: in range", in_range(500, 64));
    output.show("1024 times 31: in range", in_range(1024, 31));
    output.show("501 times 64: 5 at 3", outside(501, 64));
    output.show("1024 times 32: 5 at 3", outside(1024, 32));
}
