// What a program says on standard error, where nothing is said if nothing can be; and what an error asks for.
ghost use Rattle.std.specs.Prelude.{◌≡◌};
ghost use Rattle.std.specs.IoError.{error_kind};
ghost use Rattle.channels.specs.Taking.{again_by};

use std::io::{Error, ErrorKind};

// Says a line.
pub(crate) fn say(rt: &impl Eprint, line: &str) {
    let _ = eprintln!(rt; "{line}");
}

// Says what failed, and why.
pub(crate) fn say_failure(rt: &impl Eprint, what: &str, why: &Error) {
    let _ = eprintln!(rt; "{what}: {why}");
}

// Whether a call that failed is tried again: a signal interrupted it.
pub(crate) fn is_interrupted(e: &Error) -> bool
    ensures { result ≡ again_by (error_kind e.now) }
{
    matches!(e.kind(), ErrorKind::Interrupted)
}
