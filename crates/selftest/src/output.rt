// Standard output of the self-test, a line for each case: the first write that fails is kept until the end, and nothing is written after it, so that every case is asked
// and counted.
ghost use Rattle.std.specs.Prelude.{◌≡◌, ◌+◌, ◌<◌, IfOk};

use std::io;

#[derive(Clone, Copy)]
pub struct Counts {
    pub passed: usize,
    pub failed: usize,
}

#[derive(Drop)]
pub struct Output<'a, P: Print> {
    to: &'a P,
    written: io::Result<()>,
    counts: Counts,
}

impl<'a, P: Print> Output<'a, P> {
    pub fn new(to: &'a P) -> Output<'a, P>
        ensures { result.counts.passed + result.counts.failed ≡ 0 }
    {
        Output {
            to,
            written: Ok(()),
            counts: Counts {
                passed: 0,
                failed: 0,
            },
        }
    }

    // Prints the case's line, and counts it.
    pub fn show(&mut self, name: &str, held: bool)
        requires { self.old.counts.passed + self.old.counts.failed < 100 }
        ensures { self.new.counts.passed + self.new.counts.failed ≡ self.old.counts.passed + self.old.counts.failed + 1 }
    {
        let verdict = if held { "ok" } else { "FAILED" };
        if self.written.is_ok() {
            self.written = println!(self.to; "{verdict:<8}{name}");
        }
        if held {
            self.counts.passed += 1;
        } else {
            self.counts.failed += 1;
        }
    }

    // The counts, or the failure, if a write failed.
    pub fn finish(self) -> io::Result<Counts>
        ensures { IfOk result (λ counts. counts ≡ self.entry.counts) }
    {
        let Output {
            to: _,
            written,
            counts,
        } = self;
        written?;
        Ok(counts)
    }
}
