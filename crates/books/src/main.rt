// Runs the books that its arguments name, document 01's "Books to try" among them, and prints what comes of each: the answer at the program's
// budget, the answers at budgets around C, and whether the book is true on the structure read back.
#![tactic(auto)]

mod run;

use checker::MOST_BYTES;
use run::tries;
use std::env::{Env, FillError};
use std::fs::File;
use std::{io, str};
use streams::read_full;

fn main(rt: HostRuntime) -> io::Result<()> {
    let mut name = [0u8; 4096];
    for i in 1..usize::MAX {
        match rt.arg(i, &mut name) {
            Ok(n) => match str::from_utf8(&name[..n]) {
                Ok(text) => named(&rt, text)?,
                Err(_) => eprintln!(rt; "argument {i} is not UTF-8")?,
            },
            Err(FillError::NotPresent) => break,
            Err(FillError::TooLong) => eprintln!(rt; "argument {i} is too long")?,
        }
    }
    Ok(())
}

fn named(rt: &HostRuntime, name: &str) -> io::Result<()> {
    let mut file = match File::open(rt, name) {
        Ok(file) => file,
        Err(error) => return eprintln!(rt; "{name}: {error}"),
    };
    let mut book = [0u8; MOST_BYTES];
    let n = read_full(&mut file, &mut book)?;
    print!(rt; "{name}")?;
    tries(rt, &book[..n])
}
