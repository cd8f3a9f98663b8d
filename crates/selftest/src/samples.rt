// The sample tables: constant arrays of marks and of next states, each handed out by a function that ties it to the list of its name, since a constant carries no clause.
ghost use Rattle.std.specs.Prelude.{◌≡◌};
ghost use Rattle.selftest.specs.Samples.{t1_marks, t1_nexts, t2_marks, t2_nexts, t3_marks, t3_nexts, single_marks, single_nexts, t1_shrunk};

pub const T1_MARKS: [u8; 5] = [0, 0, 1, 1, 0];

pub const T1_NEXTS: [u16; 10] = [1, 0, 2, 0, 3, 2, 2, 3, 3, 0];

pub const T2_MARKS: [u8; 9] = [0, 0, 0, 0, 0, 0, 1, 1, 1];

pub const T2_NEXTS: [u16; 18] = [1, 8, 2, 4, 2, 6, 4, 7, 6, 6, 7, 7, 6, 6, 6, 6, 5, 3];

pub const T3_MARKS: [u8; 6] = [0, 0, 0, 0, 0, 1];

pub const T3_NEXTS: [u16; 12] = [1, 0, 2, 1, 3, 2, 4, 3, 5, 4, 5, 5];

pub const SINGLE_MARKS: [u8; 1] = [0];

pub const SINGLE_NEXTS: [u16; 1] = [0];

const T1_SHRUNK: [u8; 30] = [
    1, 0, 6, 0, 3, 0, 2, 0, 0, 2, 0, 3, 0, 0, 1, 3, 0, 12, 0, 1, 0, 0, 0, 2, 0, 0, 0, 2, 0, 2,
];

pub fn t1_marks() -> [u8; 5]
    ensures { result ≡ t1_marks }
{
    T1_MARKS
}

pub fn t1_nexts() -> [u16; 10]
    ensures { result ≡ t1_nexts }
{
    T1_NEXTS
}

pub fn t2_marks() -> [u8; 9]
    ensures { result ≡ t2_marks }
{
    T2_MARKS
}

pub fn t2_nexts() -> [u16; 18]
    ensures { result ≡ t2_nexts }
{
    T2_NEXTS
}

pub fn t3_marks() -> [u8; 6]
    ensures { result ≡ t3_marks }
{
    T3_MARKS
}

pub fn t3_nexts() -> [u16; 12]
    ensures { result ≡ t3_nexts }
{
    T3_NEXTS
}

pub fn single_marks() -> [u8; 1]
    ensures { result ≡ single_marks }
{
    SINGLE_MARKS
}

pub fn single_nexts() -> [u16; 1]
    ensures { result ≡ single_nexts }
{
    SINGLE_NEXTS
}

// The shrunk file of T1, tied to the list of its name.
pub fn t1_shrunk() -> [u8; 30]
    ensures { result ≡ t1_shrunk }
{
    T1_SHRUNK
}
