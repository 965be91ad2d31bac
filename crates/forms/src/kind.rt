// The kinds of a line's parts (document 01, "Lines"), and how a part of each is passed.
ghost use Rattle.std.specs.Prelude.{◌≡◌, true, ◌+◌, ◌-◌, ◌*◌, ◌≤◌, ◌<◌, length};
ghost use Rattle.rights.specs.Bytes.{digit_byte};
ghost use Rattle.forms.specs.How.Codes.{kind_number, area_by};
ghost use Rattle.forms.specs.How.Reader.{PartPassed};

use crate::limits::DAY_DIGITS;
use crate::part::{Part, known, label_part_end, passed, path_part_end, silent};
use crate::tree::read_tree;
use crate::word::{numbered_right, numbered_sign, pass_run};
use rights::path::digit_byte;

#[derive(Clone, Copy)]
pub enum Kind {
    // A label, which may be a subject's name.
    Label,
    Path,
    Tree,
    // `accept` or `deny`.
    Sign,
    Right,
    Day,
}

// `accept` or `deny` at `at`.
fn pass_sign(s: &[u8], at: usize) -> Option<Part>
    requires { at ≤ length s.now }
    ensures { PartPassed 4 s.now at result }
{
    let run = pass_run(s, at);
    known(at, run.end, numbered_sign(run.number))
}

// A right at `at`.
// Kept beside pass_sign: two lines each, which differ in the table that they ask.
fn pass_right(s: &[u8], at: usize) -> Option<Part>
    requires { at ≤ length s.now }
    ensures { PartPassed 5 s.now at result }
{
    let run = pass_run(s, at);
    known(at, run.end, numbered_right(run.number))
}

// The number that digits write, where those before the digit b write n.
fn with_digit(n: usize, b: u8) -> usize
    requires { (n < 10000) × (digit_byte b ≡ true) }
    ensures { result ≡ n * 10 + (b - 48) }
{
    n * 10 + usize::from(b - b'0')
}

// A day at `at`, and the number that its digits write. It has no fourth digit.
fn pass_day(s: &[u8], at: usize) -> Option<Part>
    requires { at ≤ length s.now }
    ensures { PartPassed 6 s.now at result }
{
    let mut says = 0;
    for i in at..s.len() {
        if !digit_byte(s[i]) {
            return passed(at, i, says);
        }
        if DAY_DIGITS <= i - at {
            return None;
        }
        says = with_digit(says, s[i]);
    }
    passed(at, s.len(), says)
}

// The part of kind k at `at`. What it says is found while it is passed, and so are a tree's records, which are put into the lent area.
// Kept: a match of an enum, whose arms take different arguments; a table of closures would need one signature.
pub(crate) fn pass_part(s: &[u8], at: usize, k: Kind, tree: &mut [u8]) -> Option<Part>
    requires { (at ≤ length s.now) × (16 * length s.now ≤ length tree.old) }
    ensures { PartPassed (kind_number k) s.now at result × (tree.new ≡ area_by (kind_number k) s.now at tree.old) }
{
    match k {
        Kind::Label => silent(label_part_end(s, at)),
        Kind::Path => silent(path_part_end(s, at)),
        Kind::Tree => read_tree(s, at, tree),
        Kind::Sign => pass_sign(s, at),
        Kind::Right => pass_right(s, at),
        Kind::Day => pass_day(s, at),
    }
}
