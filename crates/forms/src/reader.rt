// A line is read left to right from a place that only moves on (document 01, "Lines"). The reader holds the line, and
// how far it came in it. One is made for a line once `(` and the word were passed, and moves through each space and
// part, and `)`. `take` takes what stands next: it leaves the work to a function on slice and progress, and hands the
// reader back, moved on; once something is missing there is no reader. `walk` takes a form's parts in order; whoever
// reads a line calls it with the bare line.
ghost use Rattle.std.specs.Prelude.{◌≡◌, Some, ◌+◌, ◌*◌, ◌≤◌, ◌<◌, length};
ghost use Rattle.forms.specs.Form.{closes_line};
ghost use Rattle.forms.specs.How.Reader.{Came, Reading, Begun, Moves, Walks, area_in, held_to, shut_at, taken};

use crate::kind::pass_part;
use crate::layout::{Layout, numbered_layout};
use crate::part::Part;
use crate::word::pass_run;
use rights::path::byte_is;

// How far reading came: the reader's place, the form's word with the kinds of its parts, the places after the word and
// after each part, and what each part says.
#[derive(Clone, Copy)]
pub struct Progress {
    pub at: usize,
    pub layout: Layout,
    pub ends: [usize; 5],
    pub says: [usize; 4],
}

#[derive(Clone, Copy)]
pub struct LineReader<'a> {
    line: &'a [u8],
    progress: Progress,
}

// Part i was passed.
fn held(p: Progress, i: usize, part: Part) -> Progress
    requires { (i < 4) × (length p.ends ≡ 5) × (length p.says ≡ 4) }
    ensures { result ≡ held_to p i part.end part.says }
{
    let mut ends = p.ends;
    let mut says = p.says;
    ends[i + 1] = part.end;
    says[i] = part.says;
    Progress {
        at: part.end,
        ends,
        says,
        ..p
    }
}

// `(` and the form's word.
fn pass_word(s: &[u8]) -> Option<Progress>
    ensures { Begun s.now result }
{
    if !byte_is(s, 0, b'(') {
        return None;
    }
    let run = pass_run(s, 1);
    let e = run.end;
    if e <= 1 {
        return None;
    }
    Some(Progress {
        at: e,
        layout: numbered_layout(run.number),
        ends: [e, 0, 0, 0, 0],
        says: [0; 4],
    })
}

// A space and part i, if the form has one.
fn pass_next(s: &[u8], p: Progress, i: usize, tree: &mut [u8]) -> Option<Progress>
    requires { Reading s.now i p × (i < 4) × (16 * length s.now ≤ length tree.old) }
    ensures { Came s.now (i + 1) result × Moves s.now i p tree.old result tree.new }
{
    let kinds = p.layout.kinds;
    let Some(k) = kinds[i] else {
        return Some(p);
    };
    if !byte_is(s, p.at, b' ') {
        return None;
    }
    let part = pass_part(s, p.at + 1, k, tree)?;
    Some(held(p, i, part))
}

// Whether `)` stands at `at` and ends the line.
fn closed(s: &[u8], at: usize) -> bool
    ensures { result ≡ closes_line s.now at }
{
    byte_is(s, at, b')') && s.len() <= at + 1
}

// `)`, which ends the line.
fn pass_close(s: &[u8], p: Progress) -> Option<Progress>
    ensures { result ≡ shut_at s.now p }
{
    if !closed(s, p.at) {
        return None;
    }
    Some(Progress { at: s.len(), ..p })
}

// Takes part i.
fn take<'a>(r: LineReader<'a>, i: usize, tree: &mut [u8]) -> Option<LineReader<'a>>
    requires { Reading r.line.now i r.progress × (i < 4) × (16 * length r.line.now ≤ length tree.old) }
    ensures line { (q : _) → result ≡ Some q → q.line ≡ r.entry.line }
    ensures moves { Came r.entry.line.now (i + 1) (taken result)
        × Moves r.entry.line.now i r.entry.progress tree.old (taken result) tree.new }
{
    let progress = pass_next(r.line, r.progress, i, tree)?;
    Some(LineReader {
        line: r.line,
        progress,
    })
}

// Takes the parts of a line's form in order: how far the reader came, if all is there.
pub(crate) fn walk(line: &[u8], tree: &mut [u8]) -> Option<Progress>
    requires { 16 * length line.now ≤ length tree.old }
    ensures { Walks line.now result × (area_in line.now tree.old ≡ tree.new) }
{
    let progress = pass_word(line)?;
    let mut r = LineReader { line, progress };
    for i in 0..4 {
        r = take(r, i, tree)?;
    }
    pass_close(r.line, r.progress)
}
