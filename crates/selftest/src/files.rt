// Tables written as files, from arrays of marks and of next states; and the files of the samples.
ghost use Rattle.std.specs.Prelude.{◌≡◌, ◌+◌, ◌*◌, ◌≤◌, length};
ghost use Rattle.std.proofs.lemmas.List.Edits.{sets};
ghost use Rattle.lending.specs.Memory.{written};
ghost use Rattle.table.specs.Encoding.{encode};
ghost use Rattle.selftest.specs.Samples.{sample, pairs, t1, t2, t3, single};

use crate::samples;
use lending::put_pair;
use shrinking::writing::write_sizes;

// Writes the marks behind the head of field 2.
fn write_marks(marks: &[u8], out: &mut [u8])
    requires room { 12 + length marks.now ≤ length out.old }
    ensures { out.new ≡ sets out.old 12 marks.now }
{
    let end = 12 + marks.len();
    out[12..end].copy_from_slice(marks);
}

// Writes the next states from a place on, two bytes each.
fn write_nexts(nexts: &[u16], begin: usize, out: &mut [u8])
    requires room { begin + 2 * length nexts.now ≤ length out.old }
    ensures { out.new ≡ sets out.old begin (pairs nexts.now) }
{
    for (i, next) in nexts.iter().enumerate() {
        put_pair(out, begin + 2 * i, usize::from(*next));
    }
}

// Writes the table that starts at 0 as a file; gives its length.
pub fn write_table(marks: &[u8], nexts: &[u16], signs: usize, out: &mut [u8]) -> usize
    requires sizes { (length nexts.now ≡ length marks.now * signs) × (length marks.now ≤ 1024) × (signs ≤ 64) × (length nexts.now ≤ 32000) }
    requires room { 12 + length marks.now + 3 + 2 * length nexts.now ≤ length out.old }
    ensures long { result ≡ 12 + length marks.now + 3 + 2 * length nexts.now }
    ensures file { out.new ≡ written (encode (sample signs marks.now nexts.now)) out.old }
{
    let tag = 12 + marks.len();
    let body = 2 * nexts.len();
    write_sizes(marks.len(), signs, 0, out);
    write_marks(marks, out);
    out[tag] = 3;
    put_pair(out, tag + 1, body);
    write_nexts(nexts, tag + 3, out);
    tag + 3 + body
}

// The file of a sample, which fills the array.
fn file_of<const N: usize>(marks: &[u8], nexts: &[u16], signs: usize) -> [u8; N]
    requires sizes { (length nexts.now ≡ length marks.now * signs) × (length marks.now ≤ 1024) × (signs ≤ 64) × (length nexts.now ≤ 32000) }
    requires long { 12 + length marks.now + 3 + 2 * length nexts.now ≡ N }
    ensures { result ≡ encode (sample signs marks.now nexts.now) }
{
    let mut file = [0u8; N];
    write_table(marks, nexts, signs, &mut file);
    file
}

pub fn t1_file() -> [u8; 40]
    ensures { result ≡ encode t1 }
{
    file_of(&samples::t1_marks(), &samples::t1_nexts(), 2)
}

pub fn t2_file() -> [u8; 60]
    ensures { result ≡ encode t2 }
{
    file_of(&samples::t2_marks(), &samples::t2_nexts(), 2)
}

pub fn t3_file() -> [u8; 45]
    ensures { result ≡ encode t3 }
{
    file_of(&samples::t3_marks(), &samples::t3_nexts(), 2)
}

pub fn single_file() -> [u8; 18]
    ensures { result ≡ encode single }
{
    file_of(&samples::single_marks(), &samples::single_nexts(), 1)
}
