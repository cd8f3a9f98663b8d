// Reads a table file from standard input and prints the report on it: its sizes, what was found, and the class of each state; or the refusal.
#![tactic(auto)]

use reporting::input::{or_empty, read_file};
use std::io;

// A line for each of the first n states.
fn print_classes(out: &impl Print, names: &[u16], n: usize) -> io::Result<()> {
    for (q, name) in names.iter().enumerate().take(n) {
        println!(out; "{q} {name}")?;
    }
    Ok(())
}

fn print_report(out: &impl Print, file: &[u8]) -> io::Result<()> {
    let mut work = [0u16; 16384];
    let mut classes = [0u16; 1024];
    let mut pending = [0u16; 1024];
    let mut shrunk = [0u8; 65015];
    let answer = reporting::report(file, &mut work, &mut classes, &mut pending, &mut shrunk);
    match answer {
        Ok(found) => {
            println!(out; "{found}")?;
            print_classes(out, &classes, found.sizes.states)
        }
        Err(refusal) => println!(out; "refused {refusal}"),
    }
}

fn main(rt: HostRuntime) -> io::Result<()> {
    let file = or_empty(rt.alloc(), read_file(rt.alloc(), rt.stdin()))?;
    print_report(&rt, &file)
}
