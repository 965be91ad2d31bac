// Answers (document 01, "What is written"), put into an area that the caller lends. An answer's length is found by putting it into an
// area of one byte, and what does not fit is not written; so the area of an answer that is too long keeps its bytes (refusal 12).
// A view or a query that surely fits is put at once.
// The time is in proportion to the nodes looked at and the bytes of the answer.
ghost use Rattle.std.specs.Prelude.{◌≡◌, ℕ, List, ◌∷◌, [], ◌+◌, ◌-◌, ◌*◌, ◌%◌, ◌^◌, ◌≤◌, ◌<◌, leb, length, drop, replicate};
ghost use Rattle.std.proofs.Math.Seq.{paste};
ghost use Rattle.rights.specs.Limits.{label_max, records_max};
ghost use Rattle.rights.specs.PathText.{decimal};
ghost use Rattle.rights.specs.Nodes.{label_at};
ghost use Rattle.rights.specs.How.Seen.{nodes_in};
ghost use Rattle.rights.specs.Marks.{marks_of, keep};
ghost use Rattle.answers.specs.Answer.{ok_text, done_text, refused_text, end_line, hit_line, hit_lines, query_text, find_text, view_text, child_lines, opening, closing, next_level, root_line};
ghost use Rattle.answers.specs.How.AnswerParts.{node_at, hit_line_at, node_text};
ghost use Rattle.answers.specs.How.AnswerArea.{Puts, PutsAlways, Answered, text_most};

use rights::limits::{LABEL_AT, RECORDS_MAX};
use rights::marks::count_marks;
use rights::nodes::{Shown, record_place};

// A number of 64 bits has at most 20 digits.
const DIGITS_MAX: usize = 20;

// A hit's line has at most 52 bytes, a node of a view 46, and the last line 27.
const NODE_TEXT_MAX: usize = 52;

const END_TEXT_MAX: usize = 27;

// Whether an answer of n nodes surely fits.
fn surely_fits(n: usize, room: usize) -> bool
    requires { n ≤ records_max }
    ensures { result ≡ leb (text_most n) room }
{
    NODE_TEXT_MAX * n + END_TEXT_MAX <= room
}

// Copies s into d at byte `to`.
// Kept: a loop, for `copy_from_slice` needs memmove of C's library, and include/timetable.h promises memcpy and memset alone.
fn copy(d: &mut [u8], to: usize, s: &[u8])
    requires { to + length s.now ≤ length d.old }
    ensures { d.new ≡ paste d.old to s.now (length s.now) }
{
    let n = s.len();
    let mut j = 0;
    while j < n {
        d[to + j] = s[j];
        j += 1;
    }
}

// Puts s into the area at byte `at` where it fits; the place after it, fit or not.
pub(crate) fn put_bytes(area: &mut [u8], at: usize, s: &[u8]) -> usize
    requires { at + length s.now < 2 ^ 64 }
    ensures { Puts s.now at area.old area.new result }
{
    let r = at + s.len();
    if r <= area.len() {
        copy(area, at, s);
    }
    r
}

pub(crate) fn put_byte(area: &mut [u8], at: usize, b: u8) -> usize
    requires { at + 1 < 2 ^ 64 }
    ensures { Puts (b ∷ []) at area.old area.new result }
{
    put_bytes(area, at, &[b])
}

// The last digit of n.
pub(crate) fn digit(n: usize) -> u8
    ensures { result ≡ 48 + n % 10 }
{
    b'0' + (n % 10) as u8
}

// Puts n in decimal, in at most k digits.
fn put_decimal(area: &mut [u8], at: usize, k: usize, n: usize) -> usize
    requires { (k ≤ 20) × (at < 2 ^ 62) }
    ensures { (Puts (decimal k n) at area.old area.new result) × (result ≤ at + k) }
{
    if k == 0 {
        return at;
    }
    let d = digit(n);
    if n < 10 {
        return put_byte(area, at, d);
    }
    let next = put_decimal(area, at, k - 1, n / 10);
    put_byte(area, next, d)
}

// Puts the label that shown node i carries.
pub(crate) fn put_label(area: &mut [u8], at: usize, shown: &Shown, i: usize) -> usize
    requires { (i < length shown.now.numbers.now) × (at < 2 ^ 62) }
    ensures { (Puts (label_at (nodes_in shown.now) i) at area.old area.new result)
        × (result ≤ at + label_max) }
{
    let x = shown.numbers[i];
    if RECORDS_MAX <= usize::from(x) {
        return put_bytes(area, at, b"RESTRICTED");
    }
    let place = record_place(x);
    let from = place + LABEL_AT;
    let end = from + usize::from(shown.table[place + 1]);
    put_bytes(area, at, &shown.table[from..end])
}

// Puts `(hit LEVEL L)` of shown node i. It is inlined into the loop over the hits:
// else a query takes 5 % more instructions.
#[inline(always)]
fn put_hit(area: &mut [u8], at: usize, shown: &Shown, i: usize) -> usize
    requires { (i < length shown.now.numbers.now) × (at < 2 ^ 61) }
    ensures { (Puts (hit_line (node_at (nodes_in shown.now) i)) at area.old area.new result)
        × (result ≤ at + 52) }
{
    let level = shown.level(i);
    let a = put_bytes(area, at, b"(hit ");
    let b = put_decimal(area, a, DIGITS_MAX, level);
    let c = put_byte(area, b, b' ');
    let d = put_label(area, c, shown, i);
    put_bytes(area, d, b")\n")
}

// Puts the line of shown node i, if it is marked.
fn put_marked(area: &mut [u8], at: usize, shown: &Shown, marks: &[u8], i: usize) -> usize
    requires { (i < length shown.now.numbers.now) × (i < length marks.now) × (at < 2 ^ 61) }
    ensures { (Puts (hit_line_at marks.now (nodes_in shown.now) i) at area.old
        area.new result) × (result ≤ at + 52) }
{
    if marks[i] == 0 {
        return at;
    }
    put_hit(area, at, shown, i)
}

// Puts the lines of the marked nodes.
fn put_hits(area: &mut [u8], shown: &Shown, marks: &[u8]) -> usize
    requires { length shown.now.numbers.now ≤ length marks.now }
    ensures { (Puts (hit_lines (keep (marks_of marks.now) (nodes_in shown.now))) 0 area.old
        area.new result) × (result ≤ 52 * length shown.now.numbers.now) }
{
    let mut at = 0;
    for i in 0..shown.len() {
        at = put_marked(area, at, shown, marks, i);
    }
    at
}

// Puts `(end K)`.
fn put_end(area: &mut [u8], at: usize, k: usize) -> usize
    requires { at < 2 ^ 61 }
    ensures { (Puts (end_line k) at area.old area.new result) × (result ≤ at + 27) }
{
    let a = put_bytes(area, at, b"(end ");
    let b = put_decimal(area, a, DIGITS_MAX, k);
    put_bytes(area, b, b")\n")
}

// Puts the answer to `query`.
fn put_query(area: &mut [u8], shown: &Shown, marks: &[u8]) -> usize
    requires { length shown.now.numbers.now ≤ length marks.now }
    ensures { (Puts (query_text (keep (marks_of marks.now) (nodes_in shown.now))) 0 area.old
        area.new result) × (result ≤ text_most (length shown.now.numbers.now)) }
{
    let n = shown.len();
    let k = count_marks(&marks[..n]);
    let at = put_hits(area, shown, marks);
    put_end(area, at, k)
}

// Puts the answer to `find`: the first hit in document order.
fn put_found(area: &mut [u8], shown: &Shown, marks: &[u8]) -> usize
    requires { length shown.now.numbers.now ≤ length marks.now }
    ensures { Puts (find_text (keep (marks_of marks.now) (nodes_in shown.now))) 0 area.old
        area.new result }
{
    for i in 0..shown.len() {
        if marks[i] != 0 {
            return put_hit(area, 0, shown, i);
        }
    }
    put_bytes(area, 0, b"(none)\n")
}

// What stands before the label of a node of a level.
fn put_opening(area: &mut [u8], at: usize, level: usize) -> usize
    requires { at < 2 ^ 62 }
    ensures { (Puts (opening level) at area.old area.new result) × (result ≤ at + 8) }
{
    if level == 1 {
        return put_bytes(area, at, b"(child (");
    }
    put_bytes(area, at, b" (")
}

// Puts k times `)`.
fn put_closed(area: &mut [u8], at: usize, k: usize) -> usize
    requires { (at < 2 ^ 62) × (k ≤ 12) }
    ensures { (Puts (replicate k 41) at area.old area.new result) × (result ≡ at + k) }
{
    put_bytes(area, at, &[b')'; 12][0..k])
}

// What stands after a label: the ends of trees below level l, where the next node's level is m.
fn put_closing(area: &mut [u8], at: usize, l: usize, m: usize) -> usize
    requires { (at < 2 ^ 61) × (l ≤ 12) }
    ensures { (Puts (closing l m) at area.old area.new result) × (result ≤ at + 14) }
{
    let k = l.saturating_sub(m);
    let a = put_closed(area, at, k);
    if m == 1 {
        return put_bytes(area, a, b")\n");
    }
    a
}

// The level of the node after shown node i, 1 after the last.
fn next_level(shown: &Shown, i: usize) -> usize
    requires { i < length shown.now.numbers.now }
    ensures { result ≡ next_level (drop (i + 1) (nodes_in shown.now)) }
{
    let j = i + 1;
    if j < shown.len() {
        return shown.level(j);
    }
    1
}

// Puts shown node i, which is not the root.
fn put_node(area: &mut [u8], at: usize, shown: &Shown, i: usize) -> usize
    requires { (i < length shown.now.numbers.now) × (at < 2 ^ 60) }
    ensures { (Puts (node_text (nodes_in shown.now) i) at area.old area.new result)
        × (result ≤ at + 46) }
{
    let level = shown.level(i);
    let next = next_level(shown, i);
    let a = put_opening(area, at, level);
    let b = put_label(area, a, shown, i);
    put_closing(area, b, level + 1, next)
}

// Puts the lines of the root's children.
fn put_children(area: &mut [u8], at: usize, shown: &Shown) -> usize
    requires { (0 < length shown.now.numbers.now) × (at < 64) }
    ensures { (Puts (child_lines (drop 1 (nodes_in shown.now))) at area.old area.new result)
        × (result + 46 ≤ at + 46 * length shown.now.numbers.now) }
{
    let mut next = at;
    for i in 1..shown.len() {
        next = put_node(area, next, shown, i);
    }
    next
}

// Puts `(root L)`.
fn put_root(area: &mut [u8], shown: &Shown) -> usize
    requires { (0 < length shown.now.numbers.now) }
    ensures { (Puts (root_line (label_at (nodes_in shown.now) 0)) 0 area.old area.new result)
        × (result ≤ 32) }
{
    let a = put_bytes(area, 0, b"(root ");
    let b = put_label(area, a, shown, 0);
    put_bytes(area, b, b")\n")
}

// Puts the answer to `view`.
fn put_view(area: &mut [u8], shown: &Shown) -> usize
    ensures { (Puts (view_text (nodes_in shown.now)) 0 area.old area.new result)
        × (result ≤ text_most (length shown.now.numbers.now)) }
{
    if shown.len() == 0 {
        return put_end(area, 0, 0);
    }
    let a = put_root(area, shown);
    let b = put_children(area, a, shown);
    put_end(area, b, shown.len())
}

// Puts `(done S D)`.
fn put_done(area: &mut [u8], s: usize, d: usize) -> usize
    ensures { Puts (done_text s d) 0 area.old area.new result }
{
    let a = put_bytes(area, 0, b"(done ");
    let b = put_decimal(area, a, DIGITS_MAX, s);
    let c = put_byte(area, b, b' ');
    let e = put_decimal(area, c, DIGITS_MAX, d);
    put_bytes(area, e, b")\n")
}

// Puts `(refused N)`.
fn put_refused(area: &mut [u8], number: u8) -> usize
    ensures { Puts (refused_text number) 0 area.old area.new result }
{
    let a = put_bytes(area, 0, b"(refused ");
    let b = put_decimal(area, a, DIGITS_MAX, usize::from(number));
    put_bytes(area, b, b")\n")
}

// Writes what `put` puts, if the area has room for it; its length, fit or not.
fn answer<F: Fn(&mut [u8]) -> usize>(put: F, area: &mut [u8]) -> usize
    requires { F.IsAlwaysCallable put }
    ensures { (text : List ℕ) → PutsAlways F.Fn put text → Answered text area.old area.new result }
{
    let mut scratch = [0u8; 1];
    let need = put(&mut scratch);
    if area.len() < need {
        return need;
    }
    put(area)
}

// Writes `(ok)`, if the area has room for it; its length, fit or not. So with each answer below.
pub fn answer_ok(area: &mut [u8]) -> usize
    ensures { Answered ok_text area.old area.new result }
{
    answer(|area| put_bytes(area, 0, b"(ok)\n"), area)
}

// Writes the answer to a change: s nodes selected, d done.
pub fn answer_done(s: usize, d: usize, area: &mut [u8]) -> usize
    ensures { Answered (done_text s d) area.old area.new result }
{
    answer(|area| put_done(area, s, d), area)
}

// Writes the answer to `view`.
pub fn answer_view(shown: &Shown, area: &mut [u8]) -> usize
    ensures { Answered (view_text (nodes_in shown.now)) area.old area.new result }
{
    if surely_fits(shown.len(), area.len()) {
        return put_view(area, shown);
    }
    answer(|area| put_view(area, shown), area)
}

// Writes the answer to `query`, whose hits are marked.
pub fn answer_query(shown: &Shown, marks: &[u8], area: &mut [u8]) -> usize
    requires { length shown.now.numbers.now ≤ length marks.now }
    ensures { Answered (query_text (keep (marks_of marks.now) (nodes_in shown.now))) area.old
        area.new result }
{
    if surely_fits(shown.len(), area.len()) {
        return put_query(area, shown, marks);
    }
    answer(|area| put_query(area, shown, marks), area)
}

// Writes the answer to `find`, whose hits are marked.
pub fn answer_find(shown: &Shown, marks: &[u8], area: &mut [u8]) -> usize
    requires { length shown.now.numbers.now ≤ length marks.now }
    ensures { Answered (find_text (keep (marks_of marks.now) (nodes_in shown.now)))
        area.old area.new result }
{
    answer(|area| put_found(area, shown, marks), area)
}

// Writes what the program prints for a refusal.
pub fn answer_refused(number: u8, area: &mut [u8]) -> usize
    ensures { (Answered (refused_text number) area.old area.new result) × (result < 32) }
{
    answer(|area| put_refused(area, number), area)
}
