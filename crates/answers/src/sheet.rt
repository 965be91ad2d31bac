// The sheet for a room's door (document 02, card 3), put into the lent area.
// The time is in proportion to the nodes: five passes find the days; each row goes once more through each day's stretch, and through no other.
ghost use Rattle.std.specs.Prelude.{◌≡◌, ◌+◌, ◌^◌, ◌≤◌, ◌<◌, map, length};
ghost use Rattle.std.specs.List.{All};
ghost use Rattle.rights.specs.Nodes.{label_at};
ghost use Rattle.rights.specs.XPath.{at, children, each};
ghost use Rattle.rights.specs.How.Seen.{nodes_in};
ghost use Rattle.answers.specs.Sheet.{cell, nth, days, carries, labelled, lesson, row_text, row, periods, sheet_text};
ghost use Rattle.answers.specs.How.AnswerArea.{Puts, Answered};
ghost use Rattle.answers.specs.How.SheetParts.{First, place, Inside};

use crate::answer::{digit, put_byte, put_bytes, put_label};
use rights::labels::same_label;
use rights::limits::LABEL_MAX;
use rights::nodes::Shown;

// Nine rows of 72 bytes and a line feed.
const SHEET_BYTES: usize = 657;

const DAYS: usize = 5;

const PERIODS: usize = 8;

// A cell, without the `|` after it.
const CELL_BYTES: usize = 13;

// Whether shown node i carries the label `room`.
fn is_labelled(shown: &Shown, i: usize, room: &[u8]) -> bool
    requires { i < length shown.now.numbers.now }
    ensures { result ≡ carries room.now (nodes_in shown.now) i }
{
    let mut label = [0u8; LABEL_MAX];
    let n = put_label(&mut label, 0, shown, i);
    same_label(&label[..n], room)
}

// The first node of level l from place i on, before a node of a level under l.
fn child_from(shown: &Shown, l: usize, i: usize) -> Option<usize>
    ensures first { First (nodes_in shown.now) l i (place (nodes_in shown.now) result) }
    ensures inside { Inside (nodes_in shown.now) result }
{
    for j in i..shown.len() {
        let level = shown.level(j);
        if level < l {
            return None;
        }
        if level == l {
            return Some(j);
        }
    }
    None
}

// The child of node i that k others stand before.
fn nth_child(shown: &Shown, i: usize, k: usize) -> Option<usize>
    ensures nth { place (nodes_in shown.now) result
        ≡ nth (nodes_in shown.now) (children (nodes_in shown.now) (at i)) k }
    ensures inside { Inside (nodes_in shown.now) result }
{
    if shown.len() <= i {
        return None;
    }
    let l = shown.level(i) + 1;
    let mut j = child_from(shown, l, i + 1)?;
    for _passed in 0..k {
        j = child_from(shown, l, j + 1)?;
    }
    Some(j)
}

// The first child of node i that carries the label `room`.
fn labelled_child(shown: &Shown, i: usize, room: &[u8]) -> Option<usize>
    requires { i < length shown.now.numbers.now }
    ensures first { place (nodes_in shown.now) result ≡ labelled room.now (nodes_in shown.now) i }
    ensures inside { Inside (nodes_in shown.now) result }
{
    let l = shown.level(i) + 1;
    let mut next = child_from(shown, l, i + 1);
    while let Some(j) = next {
        if is_labelled(shown, j, room) {
            return Some(j);
        }
        next = child_from(shown, l, j + 1);
    }
    None
}

// Puts the cell that holds the label of a shown node, blank where there is none.
fn put_cell(area: &mut [u8], at: usize, shown: &Shown, node: Option<usize>) -> usize
    requires { Inside (nodes_in shown.now) node × (at < 2 ^ 62) }
    ensures { (Puts (cell (label_at (nodes_in shown.now) (place (nodes_in shown.now) node))) at
        area.old area.new result)
        × (result ≡ at + 14) }
{
    let Some(i) = node else {
        return put_bytes(area, at, b"             |");
    };
    let mut filled = [b' '; LABEL_MAX];
    put_label(&mut filled, 0, shown, i);
    let next = put_bytes(area, at, &filled[0..CELL_BYTES]);
    put_byte(area, next, b'|')
}

// The first child of the first child labelled `room` of the day's n-th child.
fn find_lesson(shown: &Shown, room: &[u8], n: usize, day: Option<usize>) -> Option<usize>
    requires { 1 ≤ n }
    ensures first { place (nodes_in shown.now) result
        ≡ lesson room.now (nodes_in shown.now) n (place (nodes_in shown.now) day) }
    ensures inside { Inside (nodes_in shown.now) result }
{
    let period = nth_child(shown, day?, n - 1)?;
    let held = labelled_child(shown, period, room)?;
    nth_child(shown, held, 0)
}

// The root's first five children.
fn find_days(shown: &Shown) -> [Option<usize>; DAYS]
    ensures found { map (place (nodes_in shown.now)) result ≡ days (nodes_in shown.now) }
    ensures inside { All (Inside (nodes_in shown.now)) result }
{
    [0, 1, 2, 3, 4].map(|k| nth_child(shown, 0, k))
}

// The lessons of period n, one for each of the five days.
fn find_lessons(
    shown: &Shown,
    room: &[u8],
    n: usize,
    days: [Option<usize>; DAYS],
) -> [Option<usize>; DAYS]
    requires { 1 ≤ n }
    ensures found { map (place (nodes_in shown.now)) result
        ≡ map (lesson room.now (nodes_in shown.now) n) (map (place (nodes_in shown.now)) days) }
    ensures inside { All (Inside (nodes_in shown.now)) result }
{
    days.map(|day| find_lesson(shown, room, n, day))
}

// Puts a cell for each of five nodes.
fn put_cells(area: &mut [u8], at: usize, shown: &Shown, nodes: &[Option<usize>; DAYS]) -> usize
    requires { All (Inside (nodes_in shown.now)) nodes.now × (at < 2 ^ 61) }
    ensures { (Puts (each (λ i. cell (label_at (nodes_in shown.now) i))
        (map (place (nodes_in shown.now)) nodes.now)) at
        area.old area.new result) × (result ≡ at + 70) }
{
    let mut next = at;
    for node in nodes {
        next = put_cell(area, next, shown, *node);
    }
    next
}

// Puts a row: a byte, a space, and the cells of five nodes.
fn put_row(
    area: &mut [u8],
    at: usize,
    shown: &Shown,
    first: u8,
    nodes: &[Option<usize>; DAYS],
) -> usize
    requires { All (Inside (nodes_in shown.now)) nodes.now × (at < 2 ^ 60) }
    ensures { (Puts (row_text first (nodes_in shown.now) (map (place (nodes_in shown.now)) nodes.now)) at area.old
        area.new result) × (result ≡ at + 73) }
{
    let a = put_byte(area, at, first);
    let b = put_byte(area, a, b' ');
    let c = put_cells(area, b, shown, nodes);
    put_byte(area, c, b'\n')
}

// Puts rows 1 to 8.
fn put_rows(
    area: &mut [u8],
    at: usize,
    shown: &Shown,
    room: &[u8],
    found: [Option<usize>; DAYS],
) -> usize
    requires { (map (place (nodes_in shown.now)) found ≡ days (nodes_in shown.now)) × (at < 2 ^ 32) }
    ensures { (Puts (each (row room.now (nodes_in shown.now)) periods) at
        area.old area.new result) × (result ≡ at + 584) }
{
    let mut next = at;
    for i in 0..PERIODS {
        let n = i + 1;
        let lessons = find_lessons(shown, room, n, found);
        next = put_row(area, next, shown, digit(n), &lessons);
    }
    next
}

// Puts the sheet.
fn put_sheet(area: &mut [u8], shown: &Shown, room: &[u8]) -> usize
    ensures { Puts (sheet_text room.now (nodes_in shown.now)) 0 area.old
        area.new result }
{
    let found = find_days(shown);
    let a = put_row(area, 0, shown, b' ', &found);
    put_rows(area, a, shown, room, found)
}

// Writes the answer to `sheet`, if the area has room for it; its length, fit or not.
pub fn answer_sheet(shown: &Shown, room: &[u8], area: &mut [u8]) -> usize
    ensures { Answered (sheet_text room.now (nodes_in shown.now)) area.old
        area.new result }
{
    if area.len() < SHEET_BYTES {
        return SHEET_BYTES;
    }
    put_sheet(area, shown, room)
}
