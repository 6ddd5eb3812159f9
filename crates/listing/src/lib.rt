// The list of all breaches whose rows are representatives, written piece by piece into a lent space.
#![tactic(auto)]

pub mod opening;

ghost use Rattle.std.specs.Prelude.{◌≡◌};
ghost use Rattle.hunting.specs.Laid.{context_in, rule_in};
ghost use Rattle.listing.specs.Filling.{Lent, done_by, Fills};
ghost use Rattle.listing.specs.Entries.{Tells, EntryAt};

use hunting::{Laid, PAIRS, hunt_after_with, hunt_with};
use reply_lines::{Line, breach_line, none_line};
use runs::limits::VARIABLES;
use search::{Kind, Reply};

// Where the list goes on: at its start, after a breach with these rows, unused places 255, or past the end.
#[derive(Clone, Copy, PartialEq, Eq, Debug)]
pub enum State {
    Start,
    After([u16; VARIABLES]),
    Done,
}

impl State {
    // Whether the list is written to its end.
    pub fn is_done(self) -> bool
        ensures { result ≡ done_by self }
    {
        matches!(self, State::Done)
    }
}

// How many bytes were written, and where the list goes on.
#[derive(Clone, Copy)]
pub struct Filled {
    pub used: usize,
    pub next: State,
}

// The line that comes at a state, and the state after it.
#[derive(Clone, Copy)]
struct Entry {
    line: Line,
    next: State,
}

// The line of a breach, the last line, or none past the end.
fn told(r: Reply) -> Option<Entry>
    ensures { Tells r.kind r.places result }
{
    match r.kind {
        Kind::Breach(n) => Some(Entry {
            line: breach_line(usize::from(n), r.places),
            next: State::After(r.places),
        }),
        Kind::Clear => Some(Entry {
            line: none_line(),
            next: State::Done,
        }),
        Kind::Unfit => None,
    }
}

// The line that comes at a state, with the state after it; none where nothing comes.
fn line_at(l: Laid, known: &mut [u8; PAIRS], s: State) -> Option<Entry>
    requires { Lent l known.old }
    ensures entry_at { EntryAt (context_in l) l.table (rule_in l) s result }
    ensures lent { Lent l known.new }
{
    match s {
        State::Start => told(hunt_with(l, known)),
        State::After(places) => told(hunt_after_with(l, known, places)),
        State::Done => None,
    }
}

// Writes whole lines from a state on, as many as there is room for. What is known of pairs is kept from piece to piece, so that each is asked once.
pub fn fill(l: Laid, known: &mut [u8; PAIRS], state: State, space: &mut [u8]) -> Filled
    requires lent { Lent l known.old }
    ensures fills { Fills (context_in l) l.table (rule_in l) state space.old result space.new }
    ensures lent { Lent l known.new }
{
    let mut used = 0;
    let mut at = state;
    while let Some(e) = line_at(l, known, at) {
        let line = e.line.as_bytes();
        if space.len() - used < line.len() {
            return Filled { used, next: at };
        }
        space[used..used + line.len()].copy_from_slice(line);
        used += line.len();
        at = e.next;
    }
    Filled {
        used,
        next: State::Done,
    }
}
