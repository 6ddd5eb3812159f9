// Whether two classes differ, in the wider sense: adding their equation would make the two sides of some stated difference equal. What is known of a
// pair stands in a lent memo, so that each pair is asked once.
#![tactic(auto)]

ghost use Rattle.std.specs.Prelude.{◌≡◌, ◌+◌, ◌*◌, ◌<◌, replicate};
ghost use Rattle.meaning.specs.Following.{differ_by};
ghost use Rattle.columns.specs.Lent.{context_in};
ghost use Rattle.differing.specs.Knowing.{mark_of, ClosedIn, Knows};

use columns::Context;

// A context with the closing and the marks of its busy classes.
#[derive(Clone, Copy)]
pub struct Classed<'a> {
    pub context: Context<'a>,
    pub closed: &'a [u16; 255],
    pub busy: &'a [u8; 255],
}

// A memo that tells nothing: a byte for each pair, 0 where nothing is known, 1 for no and 2 for yes. No Option: callers lend it as bytes.
pub fn unknown() -> [u8; 65025]
    ensures { result ≡ replicate 65025 0 }
{
    [0; 65025]
}

fn mark(b: bool) -> u8
    ensures { result ≡ mark_of b }
{
    if b { 2 } else { 1 }
}

fn place(x: usize, y: usize) -> usize
    requires { (x < 255) × (y < 255) }
    ensures { result ≡ x * 255 + y }
{
    x * 255 + y
}

// Of two rows: what the memo tells, and else what the closing with their equation says, which is noted.
fn look(classed: &Classed, known: &mut [u8; 65025], x: usize, y: usize) -> bool
    requires closed_by { ClosedIn classed.now }
    requires knows { Knows (context_in classed.now.context) known.old }
    requires x_lt_rows { (x < classed.now.context.terms.rows) × (y < classed.now.context.terms.rows) }
    ensures value { result ≡ differ_by (context_in classed.now.context) x y }
    ensures knows_2 { Knows (context_in classed.now.context) known.new }
{
    let k = place(x, y);
    match known[k] {
        1 => return false,
        2 => return true,
        _ => {}
    }
    let b = further::clashes_ready(&classed.context, classed.closed, classed.busy, x, y);
    known[k] = mark(b);
    b
}

// A number from the number of rows on is that of a term outside the table, which differs from nothing. The lower class is asked first.
pub fn ask(classed: &Classed, known: &mut [u8; 65025], n: u32, m: u32) -> bool
    requires closed_by { ClosedIn classed.now }
    requires knows { Knows (context_in classed.now.context) known.old }
    ensures value { result ≡ differ_by (context_in classed.now.context) n m }
    ensures knows_2 { Knows (context_in classed.now.context) known.new }
{
    let rows = classed.context.terms.rows;
    let x = n as usize;
    let y = m as usize;
    if rows <= x {
        return false;
    }
    if rows <= y {
        return false;
    }
    if y < x {
        return look(classed, known, y, x);
    }
    look(classed, known, x, y)
}
