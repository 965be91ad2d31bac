// Reading a nested tree, `(label tree ...)`, into records (document 01, "Tree and table"): each byte is passed once, and a node's record is put when its
// label was passed.
ghost use Rattle.std.specs.Prelude.{◌≡◌, ◌+◌, ◌-◌, ◌*◌, ◌^◌, ◌≤◌, ◌<◌, length};
ghost use Rattle.rights.specs.How.Reading.{Onward};
ghost use Rattle.forms.specs.Tree.{open_end, held};
ghost use Rattle.forms.specs.How.Reader.{TailRead, TreeRead};

use crate::limits::BYTE;
use crate::part::{Part, label_part_end};
use rights::limits::RECORD_BYTES;
use rights::path::byte_is;
use rights::record::put_node;

// `(` and a label.
fn open_end(s: &[u8], at: usize) -> Option<usize>
    ensures { Onward (open_end s.now at) result (at + 2) (length s.now) }
{
    if byte_is(s, at, b'(') {
        label_part_end(s, at + 1)
    } else {
        None
    }
}

// A level as it is held in a record.
fn level_byte(level: usize) -> u8
    ensures { result ≡ held level }
{
    // Kept: `as`, since `try_from` would answer an error that can't come: it is at most 255.
    level.min(BYTE) as u8
}

// s is what follows a label where `depth` trees are open and n records stand already, and stands at `at` of its line: the place after the `)` of the outermost,
// and how many records stand then. Each node that s opens is put.
fn read_tail(s: &[u8], at: usize, depth: usize, tree: &mut [u8], n: usize) -> Option<Part>
    requires { (1 ≤ depth) × (depth ≤ at) × (at + length s.now < 2 ^ 64) × (32 * n + 16 * length s.now ≤ length tree.old) }
    ensures { TailRead s.now at depth n tree.old tree.new result }
{
    if s.is_empty() {
        return None;
    }
    let b = s[0];
    if b == b')' {
        if depth == 1 {
            return Some(Part {
                end: at + 1,
                says: n,
            });
        }
        return read_tail(&s[1..], at + 1, depth - 1, tree, n);
    }
    if b != b' ' {
        return None;
    }
    let e = open_end(s, 1)?;
    put_node(tree, RECORD_BYTES * n, level_byte(depth), &s[2..e]);
    read_tail(&s[e..], at + e, depth + 1, tree, n + 1)
}

// The tree at `at`, its records put, levels from 0: the place after it, and how many records were put.
pub(crate) fn read_tree(s: &[u8], at: usize, tree: &mut [u8]) -> Option<Part>
    requires { 16 * length s.now ≤ length tree.old }
    ensures { TreeRead s.now at tree.old tree.new result }
{
    let e = open_end(s, at)?;
    put_node(tree, 0, 0, &s[at + 1..e]);
    read_tail(&s[e..], e, 1, tree, 1)
}
