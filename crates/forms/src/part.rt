// Where the parts of a line end that are a label, a path or a word, and what they say.
ghost use Rattle.std.specs.Prelude.{◌≡◌, ◌+◌, ◌≤◌, length};
ghost use Rattle.rights.specs.How.Reading.{Ends, Onward};
ghost use Rattle.forms.specs.Part.{path_byte, label_end, run_end};
ghost use Rattle.forms.specs.How.Reader.{moved_to, known_part, part_at};

use rights::limits::LABEL_MAX;
use rights::path::{label_end, run_end};

// The place after a part, and what the form holds of it besides its place: a sign's number, a right's bit, a day's
// number, how many nodes a tree has, 0 for a label or a path.
#[derive(Clone, Copy)]
pub struct Part {
    pub end: usize,
    pub says: usize,
}

// Whether a byte may stand in the run that passes as a path: no space, no parenthesis.
#[tactic(auto, unfolding(crate::specs::Part::path_byte))]
fn path_byte(b: u8) -> bool
    ensures { result ≡ path_byte b }
{
    match b {
        b'!'..=b'\'' | b'*'..=b'~' => true,
        _ => false,
    }
}

// The place after the bytes of a path that stand at `at`.
fn path_run_end(s: &[u8], at: usize) -> usize
    requires { at ≤ length s.now }
    ensures { Ends path_byte s.now at result }
{
    run_end(s, at, path_byte)
}

// The place that reading came to from `from`, if it moved on.
pub(crate) fn moved(from: usize, to: usize) -> Option<usize>
    ensures { result ≡ moved_to from to }
{
    if from < to { Some(to) } else { None }
}

// A label of 1 to 24 bytes.
pub fn label_part_end(s: &[u8], at: usize) -> Option<usize>
    requires { at ≤ length s.now }
    ensures { Onward (label_end s.now at) result (at + 1) (length s.now) }
{
    let e = label_end(s, at);
    if LABEL_MAX < e - at {
        return None;
    }
    moved(at, e)
}

// A run of one or more bytes that passes as a path.
pub(crate) fn path_part_end(s: &[u8], at: usize) -> Option<usize>
    requires { at ≤ length s.now }
    ensures { Onward (run_end path_byte s.now at) result (at + 1) (length s.now) }
{
    moved(at, path_run_end(s, at))
}

// A part that reading came to the end of from `from`, if it moved on.
pub(crate) fn passed(from: usize, to: usize, says: usize) -> Option<Part>
    ensures { result ≡ part_at (moved_to from to) says }
{
    Some(Part {
        end: moved(from, to)?,
        says,
    })
}

// A part of which the form holds nothing but its place.
pub(crate) fn silent(end: Option<usize>) -> Option<Part>
    ensures { result ≡ part_at end 0 }
{
    Some(Part { end: end?, says: 0 })
}

// A word from `at` up to `end` that a table has as n.
pub(crate) fn known(at: usize, end: usize, n: Option<u8>) -> Option<Part>
    ensures { result ≡ known_part n at end }
{
    passed(at, end, usize::from(n?))
}
