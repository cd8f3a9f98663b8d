// The self-test: every sample asked of the proved calls, a line for each case, and the counts.
#![tactic(auto)]

mod asking;
mod cases;
mod files;
mod output;
mod samples;

use output::Output;
use std::io;

fn main(rt: HostRuntime) -> io::Result<()> {
    let mut output = Output::new(&rt);
    cases::t1_classes(&mut output);
    cases::t1_words(&mut output);
    cases::t1_files(&mut output);
    cases::t2_cases(&mut output);
    cases::t3_cases(&mut output);
    cases::single_cases(&mut output);
    cases::refused_heads(&mut output);
    cases::refused_contents(&mut output);
    cases::range_cases(&mut output);
    let counts = output.finish()?;
    println!(&rt; "{} passed, {} failed", counts.passed, counts.failed)
}
