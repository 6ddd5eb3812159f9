// The sheet of examples. The arguments name files in pairs, a text and its normal text. For each pair
// a line has the text's name, the finder's reply, and the normaliser's refusal or whether it wrote
// that normal text. The space that is lent is as long as the second file, so that a normal text
// without its last byte (`.short`) shows refusal 10.
#![tactic(auto)]

use replies::INPUT_LIMIT;
use reply_lines::{Line, over_line, refusal_line, reply_line};
use std::fs::File;
use std::io::Read;
use std::rt::Files;
use std::{env, io};

// One byte more than a text may have, so that one that is too long is known.
const TEXT_SPACE: usize = INPUT_LIMIT + 1;

// More bytes than any normal text has.
const NORMAL_SPACE: usize = 8192;

// A reply as the programs print it, without its line feed.
fn show(rt: &impl Print, line: Line) -> io::Result<()> {
    match line.as_bytes() {
        [shown @ .., _] => rt.write_all(shown),
        [] => Ok(()),
    }
}

fn tell_finder(rt: &impl Print, text: &[u8]) -> io::Result<()> {
    let r = finder::find(text);
    show(rt, reply_line(r.outcome, r.places))
}

fn tell_same(rt: &impl Print, is: bool) -> io::Result<()> {
    if is {
        print!(rt; "same")
    } else {
        print!(rt; "other")
    }
}

fn tell_written(rt: &impl Print, text: &[u8], normal: &[u8], lent: &mut [u8]) -> io::Result<()> {
    match normaliser::normalise(text, lent) {
        Ok(n) => tell_same(rt, n == normal.len() && *lent == *normal),
        Err(x) => show(rt, refusal_line(x)),
    }
}

fn tell_normaliser(rt: &impl Print, text: &[u8], normal: &[u8]) -> io::Result<()> {
    let mut space = [0; NORMAL_SPACE];
    let m = normal.len().min(NORMAL_SPACE);
    tell_written(rt, text, normal, &mut space[..m])
}

fn tell_long(rt: &impl Print) -> io::Result<()> {
    show(rt, over_line())?;
    print!(rt; " / ")?;
    show(rt, over_line())
}

fn tell(rt: &impl Print, text: &[u8], normal: &[u8]) -> io::Result<()> {
    if text.len() > INPUT_LIMIT {
        return tell_long(rt);
    }
    tell_finder(rt, text)?;
    print!(rt; " / ")?;
    tell_normaliser(rt, text, normal)
}

// The bytes of a file, as many as are wanted at most. One that cannot be read is said on standard error.
fn bytes_of<R: Files + Alloc + Eprint>(
    rt: &R,
    name: &str,
    most: usize,
) -> io::Result<Option<Vec<u8, R::A>>> {
    let mut bytes = Vec::new(rt.alloc());
    let file = match File::open(rt, name) {
        Ok(file) => file,
        Err(e) => {
            eprintln!(rt; "{name}: {e}")?;
            return Ok(None);
        }
    };
    file.take(most as u64).read_to_end(&mut bytes)?;
    Ok(Some(bytes))
}

// Nothing is written of a pair that has a file missing.
fn one(
    rt: &(impl Files + Alloc + Print + Eprint),
    text_name: &str,
    normal_name: &str,
) -> io::Result<()> {
    let text = bytes_of(rt, text_name, TEXT_SPACE)?;
    let normal = bytes_of(rt, normal_name, NORMAL_SPACE)?;
    if let (Some(text), Some(normal)) = (text, normal) {
        print!(rt; "{text_name}: ")?;
        tell(rt, &text, &normal)?;
        println!(rt)?;
    }
    Ok(())
}

fn main(rt: HostRuntime) -> io::Result<()> {
    let mut names = env::args(&rt)?.skip(1);
    while let Some(text_name) = names.next() {
        let Some(normal_name) = names.next() else {
            break;
        };
        one(&rt, &text_name, &normal_name)?;
    }
    Ok(())
}
