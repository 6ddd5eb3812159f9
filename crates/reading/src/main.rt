// Reads each file that an argument names, and says on a line what the reader answers.
#![tactic(auto)]

use runs::limits::{LITERAL, PATTERN, ROW, SAID};
use std::fs::File;
use std::io::Read;
use std::rt::Files;
use std::{env, io};
use text_runs::Told;

// No more bytes of a file are read.
const MOST: u64 = 131072;

// What the reader answers to one text.
fn tell(rt: &impl Print, text: &[u8]) -> io::Result<()> {
    let Told { answer, filled, .. } = text_reader::read(text);
    match answer {
        Ok(()) => println!(rt;
            ": rows {}, statements {}, pattern rows {}, literals {}",
            filled.rows / ROW,
            filled.said / SAID,
            filled.patterns / PATTERN,
            filled.literals / LITERAL
        ),
        Err(x) => println!(rt;
            ": refused {}, line {}, byte {}",
            x.number, x.line, x.offset
        ),
    }
}

fn text_of<R: Files + Alloc>(rt: &R, name: &str) -> io::Result<Vec<u8, R::A>> {
    let mut text = Vec::new(rt.alloc());
    let file = File::open(rt, name)?;
    file.take(MOST).read_to_end(&mut text)?;
    Ok(text)
}

// A file that cannot be read is said on standard error.
fn one(rt: &(impl Files + Alloc + Print + Eprint), name: &str) -> io::Result<()> {
    match text_of(rt, name) {
        Ok(text) => {
            print!(rt; "{name}")?;
            tell(rt, &text)
        }
        Err(e) => eprintln!(rt; "{name}: {e}"),
    }
}

fn main(rt: HostRuntime) -> io::Result<()> {
    let names = env::args(&rt)?;
    for name in names.skip(1) {
        one(&rt, &name)?;
    }
    Ok(())
}
