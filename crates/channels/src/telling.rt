// What a program says of its run: one byte, on the descriptor that its first argument names. Without such an argument it says nothing.
ghost use Rattle.std.specs.Prelude.{◌≡◌};
ghost use Rattle.channels.specs.Telling.{place_of, status_of};

use crate::output::{Sent, Stop, send};
use std::fs;
use std::fs::OpenOptions;
use std::io::Error;
use std::rt::{Env, Files};

// The run gave its reply, or nobody reads it any more.
pub const REPLIED: u8 = b'0';

// The input could not be read, or the reply not be written; it was said on standard error.
pub const FAILED: u8 = b'1';

// A digit from 3 to 9 names a descriptor.
fn named(digit: u8) -> Option<i32>
    ensures { result ≡ place_of digit }
{
    match digit {
        b'3'..=b'9' => Some(i32::from(digit - b'0')),
        _ => None,
    }
}

// The file that a descriptor from 3 to 9 is, by its name in the system.
fn path_of(fd: i32) -> Option<&'static str> {
    match fd {
        3 => Some("/proc/self/fd/3"),
        4 => Some("/proc/self/fd/4"),
        5 => Some("/proc/self/fd/5"),
        6 => Some("/proc/self/fd/6"),
        7 => Some("/proc/self/fd/7"),
        8 => Some("/proc/self/fd/8"),
        9 => Some("/proc/self/fd/9"),
        _ => None,
    }
}

// Whether a descriptor that is known by its name in the system was opened for reading alone.
fn is_read_only(rt: &impl Files, path: &str) -> bool {
    match fs::symlink_metadata(rt, path) {
        Ok(it) => it.permissions().readonly(),
        Err(_) => true,
    }
}

// Says a status on a descriptor, which is opened anew, to write behind what is there. It is opened for reading too, since a pipe with a name that
// nobody reads would else be waited for; one that was opened for reading alone is left as it is. Where it cannot be opened, nothing is said.
fn tell_on(rt: &impl Files, fd: i32, status: u8) {
    let Some(path) = path_of(fd) else {
        return;
    };
    if is_read_only(rt, path) {
        return;
    }
    if let Ok(mut file) = OpenOptions::new().read(true).append(true).open(rt, path) {
        let mut last = Error::from_raw_os_error(0);
        let _ = send(&mut file, &[status], &mut last);
    }
}

// Says a status.
pub fn tell(rt: &(impl Env + Files), status: u8) {
    let mut word = [0u8; 1];
    if let Ok(1) = rt.arg(1, &mut word)
        && let Some(fd) = named(word[0])
    {
        tell_on(rt, fd, status);
    }
}

fn status(s: Sent) -> u8
    ensures { result ≡ status_of s }
{
    match s {
        Ok(_) => REPLIED,
        Err(e) => match e.why {
            Stop::Left => REPLIED,
            Stop::Failed => FAILED,
        },
    }
}

// Says what became of the reply.
pub fn report(rt: &(impl Env + Files), s: Sent) {
    tell(rt, status(s));
}
