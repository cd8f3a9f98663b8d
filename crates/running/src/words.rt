// Running a word of signs, and a line of bytes by the sign plan.
ghost use Rattle.std.specs.Prelude.{◌≡◌, ◌<◌};
ghost use Rattle.automaton.specs.Words.{steps};
ghost use Rattle.table.specs.Tables.{unmarked};
ghost use Rattle.running.specs.Plan.{SignPlan, spelled};
ghost use Rattle.running.specs.Running.{told, walked, ran_word, ran_line};

use crate::plan::sign_plan;
use table::answer::{Kind, Refusal};
use table::fields::table_in;
use table::tables::NextStates;

// Walks from the start along a word, one sign a step: ends in a state, or at the index of the first sign that the table does not have.
// Reads each sign once.
fn walk_word(nexts: &NextStates<'_>, word: &[u8]) -> Result<usize, usize>
    ensures { result ≡ walked (unmarked nexts.now) word.now }
{
    let mut q = nexts.sizes.start;
    for i in 0..word.len() {
        let a = usize::from(word[i]);
        if nexts.sizes.signs <= a {
            return Err(i);
        }
        q = nexts.next_of(q, a);
    }
    Ok(q)
}

// Walks from the start along the word that a line spells by a sign plan. Reads each byte once.
fn walk_line(nexts: &NextStates<'_>, plan: &[u8; 256], line: &[u8]) -> usize
    requires signs { nexts.now.sizes.signs ≡ 47 }
    requires plan { SignPlan plan.now }
    ensures reached { result ≡ steps (unmarked nexts.now) nexts.now.sizes.start (spelled plan.now line.now) }
    ensures inside { result < nexts.now.sizes.states }
{
    let mut state = nexts.sizes.start;
    for &byte in line {
        let a = usize::from(plan[usize::from(byte)]);
        state = nexts.next_of(state, a);
    }
    state
}

// Runs a word, one sign a byte, from the start: the mark of the last state. Refuses 1 to 8 for the file, 10 at the index of the first
// sign that is k or more.
#[tactic(auto, using(crate::proofs::Answering::word_refused, crate::proofs::Answering::lent_strange, crate::proofs::Answering::lent_inside, crate::proofs::Answering::lent_stands))]
pub fn run_word(file: &[u8], word: &[u8]) -> Result<usize, Refusal>
    ensures { told result ≡ ran_word file.now word.now }
{
    let table = table_in(file)?;
    match walk_word(&table.nexts, word) {
        Ok(q) => Ok(usize::from(table.marks.mark_of(q))),
        Err(strange) => Err(Refusal {
            kind: Kind::Asked,
            place: strange,
        }),
    }
}

// Runs a line by the sign plan: the mark of the last state. Refuses 1 to 8 for the file, 9 at 0 where k isn't 47.
#[tactic(auto, using(crate::proofs::Signs::plan_1, crate::proofs::Answering::line_refused, crate::proofs::Answering::lent_narrow, crate::proofs::Answering::lent_line))]
pub fn run_line(file: &[u8], line: &[u8]) -> Result<usize, Refusal>
    ensures { told result ≡ ran_line file.now line.now }
{
    let table = table_in(file)?;
    if table.nexts.sizes.signs != 47 {
        return Err(Refusal {
            kind: Kind::Line,
            place: 0,
        });
    }
    let plan = sign_plan();
    let state = walk_line(&table.nexts, &plan, line);
    Ok(usize::from(table.marks.mark_of(state)))
}
