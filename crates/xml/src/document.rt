// Whether bytes are a document (document 02, card 2), and what its nodes are like: one pass over its tokens for every 16,384 levels.
ghost use Rattle.std.specs.Prelude.{◌≡◌, List, [], map, ℕ, ◌+◌, ◌-◌, ◌≤◌, ◌<◌, ◌^◌, length, get_or, replicate};
ghost use Rattle.rights.specs.Labels.{label_byte};
ghost use Rattle.rights.specs.Nodes.{node};
ghost use Rattle.rights.specs.PathReader.{run_at};
ghost use Rattle.xml.specs.How.Tokens.{Token, same_bytes, matched_in, tokens};
ghost use Rattle.xml.specs.How.Lexer.{name_in, Spot};
ghost use Rattle.xml.specs.How.Loading.{document_kind};
ghost use Rattle.xml.specs.How.Scan.{name_at, tallied, placed, closes_it, told_at, kind_within, window, Ready, Steps, FirstWindow};

use crate::lexer::{Lexeme, Span, next_token};
use rights::labels::{is_restricted, label_byte};
use std::ops::ControlFlow;

// A pass compares the closing tags of so many levels.
const WINDOW: usize = 16384;

// How many nodes there are, the deepest level, and whether some label is RESTRICTED.
// Kept: `restricted` is a fact of the nodes, and says nothing of the other fields.
#[derive(Clone, Copy)]
pub struct Tally {
    pub nodes: usize,
    pub deepest: usize,
    pub restricted: bool,
}

// How far a pass has come: the place, how many elements are open there, and the nodes so far.
#[derive(Clone, Copy)]
pub(crate) struct Pass {
    pub at: usize,
    pub depth: usize,
    pub tally: Tally,
}

// Whether the label at p is the name, which comes after it.
fn same_name(xml: &[u8], p: usize, name: Span) -> bool
    requires { (p < name.start) × (name.end ≡ name.start + run_at label_byte xml.now name.start)
        × (name.end ≤ length xml.now) }
    ensures { result ≡ same_bytes (name_at xml.now p) (name_at xml.now name.start) }
{
    let n = name.end - name.start;
    xml[p..p + n] == xml[name.start..name.end] && !label_byte(xml[p + n])
}

// One node more, of a level and with a label. It is inlined into the loop over the tokens, so that no tally goes
// through memory.
#[inline(always)]
fn counted(t: Tally, level: usize, xml: &[u8], label: Span) -> Tally
    requires { (t.nodes + 1 < 2 ^ 64) × (label.start ≤ label.end) × (label.end ≤ length xml.now) }
    ensures { result ≡ tallied t (node level (name_in xml.now label)) }
{
    Tally {
        nodes: t.nodes + 1,
        deepest: t.deepest.max(level),
        restricted: t.restricted || is_restricted(&xml[label.start..label.end]),
    }
}

// Holds the place of the name of an element of a level, if the window that begins at level low has it.
fn put_place(places: &mut [usize], low: usize, level: usize, place: usize)
    ensures { places.new ≡ placed low places.old level place }
{
    if low <= level && level - low < places.len() {
        places[level - low] = place;
    }
}

// Whether a closing tag of that name closes the element of a level, if the window has it.
fn closes_open(xml: &[u8], places: &[usize], low: usize, level: usize, name: Span) -> bool
    requires { Spot xml.now 0 name.start name.end name.end × ((k : ℕ) → get_or places.now k 0 < name.start) }
    ensures { result ≡ closes_it low (map (name_at xml.now) places.now) level (name_in xml.now name) }
{
    if level < low || places.len() <= level - low {
        return true;
    }
    same_name(xml, places[level - low], name)
}

// One token: a pass goes on, or it tells what it found.
fn scan_step(
    xml: &[u8],
    low: usize,
    p: Pass,
    places: &mut [usize],
) -> ControlFlow<Option<Tally>, Pass>
    requires { Ready xml.now places.old p }
    ensures { Steps xml.now low places.old places.new p result }
{
    let d = p.depth;
    let tally = p.tally;
    let seen = next_token(xml, p.at);
    if d == 0 {
        return match seen {
            Lexeme::End => ControlFlow::Break(Some(tally)),
            _ => ControlFlow::Break(None),
        };
    }
    match seen {
        Lexeme::Opens(name) => {
            put_place(places, low, d, name.start);
            ControlFlow::Continue(Pass {
                at: name.next,
                depth: d + 1,
                tally: counted(tally, d, xml, name),
            })
        }
        Lexeme::Closes(name) => {
            if !closes_open(xml, places, low, d - 1, name) {
                return ControlFlow::Break(None);
            }
            ControlFlow::Continue(Pass {
                at: name.next,
                depth: d - 1,
                tally,
            })
        }
        Lexeme::Empty(label) | Lexeme::Label(label) => ControlFlow::Continue(Pass {
            at: label.next,
            depth: d,
            tally: counted(tally, d, xml, label),
        }),
        Lexeme::End | Lexeme::Bad => ControlFlow::Break(None),
    }
}

// The rest of a pass.
fn scan_rest(xml: &[u8], low: usize, first: Pass, places: &mut [usize]) -> Option<Tally>
    requires { Ready xml.now places.old first }
    ensures { (f : ℕ) → length xml.now - first.at < f → result ≡ told_at xml.now low places.old f first }
{
    let mut p = first;
    loop {
        match scan_step(xml, low, p, places) {
            ControlFlow::Continue(q) => {
                p = q;
            }
            ControlFlow::Break(told) => {
                return told;
            }
        }
    }
}

// The rest of a pass after the root's tag, whose name stands at `root`. It is never inlined, so that the stack of the
// window is taken only where there is a root.
#[inline(never)]
fn scan_from(xml: &[u8], low: usize, root: usize, first: Pass) -> Option<Tally>
    requires { Ready xml.now (replicate window root) first }
    ensures { (f : ℕ) → length xml.now - first.at < f → result ≡ told_at xml.now low (replicate window root) f first }
{
    let mut places = [root; WINDOW];
    scan_rest(xml, low, first, &mut places)
}

// One pass, which compares the closing tags of the levels from low on.
fn scan(xml: &[u8], low: usize) -> Option<Tally>
    ensures { result ≡ kind_within low window (tokens xml.now) }
{
    let none = Tally {
        nodes: 0,
        deepest: 0,
        restricted: false,
    };
    let (depth, root) = match next_token(xml, 0) {
        Lexeme::Opens(root) => (1, root),
        Lexeme::Empty(root) => (0, root),
        _ => return None,
    };
    let tally = counted(none, 0, xml, root);
    scan_from(
        xml,
        low,
        root.start,
        Pass {
            at: root.next,
            depth,
            tally,
        },
    )
}

// Whether the closing tags match of a document whose first window does: one more pass for every further window.
fn matches_below(xml: &[u8], deepest: usize) -> bool
    ensures { (xs : List Token) → FirstWindow xml.now deepest xs → result ≡ matched_in [] xs }
{
    for k in 0..deepest / WINDOW {
        if scan(xml, (k + 1) * WINDOW).is_none() {
            return false;
        }
    }
    true
}

// What the nodes of a document are like; none if the bytes are no document.
pub fn check_document(xml: &[u8]) -> Option<Tally>
    ensures { result ≡ document_kind xml.now }
{
    let tally = scan(xml, 0)?;
    if matches_below(xml, tally.deepest) {
        Some(tally)
    } else {
        None
    }
}
