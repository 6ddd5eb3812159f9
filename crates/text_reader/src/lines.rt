// One line of a text: its entry, written to the end of its run.
ghost use Rattle.std.specs.Prelude.{◌≡◌, ◌<◌, length};
ghost use Rattle.text_reader.specs.Lines.{Stands, Reached, Steps};

use super::entries::entry_at;
use super::faults::Fault;
use super::pieces::Pieces;
use super::state::State;
use text_lines::lines::line_at;

// The legible line from where the reading stands to its end.
fn take_entry(text: &[u8], end: usize, s: State, pieces: &mut Pieces) -> Result<State, Fault>
    requires inside { end < length text.now }
    requires reached { Reached text.now end s pieces.old }
    ensures steps { Steps text.now s result pieces.new }
{
    let entry = entry_at(text, end, s, pieces)?;
    pieces.put(entry, s);
    Ok(s.after(entry, end + 1))
}

// The line that begins where the reading stands.
pub(crate) fn take_line(text: &[u8], s: State, pieces: &mut Pieces) -> Result<State, Fault>
    requires stands { Stands text.now s pieces.old × (s.at < length text.now) }
    ensures steps { Steps text.now s result pieces.new }
{
    let end = line_at(text, s.at)?;
    take_entry(text, end, s, pieces)
}
