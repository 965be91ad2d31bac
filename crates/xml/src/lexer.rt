// One token of a document at a place (specs/How/Tokens): a tag, or a text between tags, with the blanks before it.
ghost use Rattle.std.specs.Prelude.{◌≡◌, ◌+◌, ◌≤◌, ◌<◌, length};
ghost use Rattle.rights.specs.How.Reading.{Ends};
ghost use Rattle.xml.specs.Document.{blank_byte, name_start};
ghost use Rattle.xml.specs.How.Tokens.{opening, closing, texting};
ghost use Rattle.xml.specs.How.Lexer.{LexedAs, LexedAt};

use forms::part::label_part_end;
use rights::path::{byte_is, run_end};

// Where a name or a text begins and ends, and the place after its token.
#[derive(Clone, Copy)]
pub(crate) struct Span {
    pub start: usize,
    pub end: usize,
    pub next: usize,
}

// A token. `</a>` is Closes, `<a/>` is Empty.
#[derive(Clone, Copy)]
pub(crate) enum Lexeme {
    Opens(Span),
    Closes(Span),
    Empty(Span),
    Label(Span),
    End,
    Bad,
}

// Whether a byte is a space, a tab or part of a line end. Tests joined by `||`, which a compiler makes one; of a match
// it makes three.
#[tactic(auto, unfolding(crate::specs::Document::blank_byte))]
fn blank_byte(b: u8) -> bool
    ensures { result ≡ blank_byte b }
{
    b == b' ' || b == b'\t' || b == b'\r' || b == b'\n'
}

// Whether a label that begins with this byte may be a name. Letters are told by the first test.
#[tactic(auto, unfolding(crate::specs::Document::name_start, rights::specs::Bytes::digit_byte))]
fn name_start(b: u8) -> bool
    ensures { result ≡ name_start b }
{
    b'9' < b || (b < b'0' && b != b'-' && b != b'.')
}

// The place after the blanks that stand at `at`.
fn blanks_end(s: &[u8], at: usize) -> usize
    requires { at ≤ length s.now }
    ensures { Ends blank_byte s.now at result }
{
    run_end(s, at, blank_byte)
}

// What begins with `</` at i.
fn closing_tag(xml: &[u8], i: usize) -> Lexeme
    requires { i + 2 ≤ length xml.now }
    ensures { LexedAs closing xml.now i result }
{
    let Some(e) = label_part_end(xml, i + 2) else {
        return Lexeme::Bad;
    };
    if !byte_is(xml, e, b'>') {
        return Lexeme::Bad;
    }
    Lexeme::Closes(Span {
        start: i + 2,
        end: e,
        next: e + 1,
    })
}

// What begins with `<` at i and not with `</`.
fn opening_tag(xml: &[u8], i: usize) -> Lexeme
    requires { i + 1 ≤ length xml.now }
    ensures { LexedAs opening xml.now i result }
{
    let Some(e) = label_part_end(xml, i + 1) else {
        return Lexeme::Bad;
    };
    if !name_start(xml[i + 1]) {
        return Lexeme::Bad;
    }
    if byte_is(xml, e, b'>') {
        return Lexeme::Opens(Span {
            start: i + 1,
            end: e,
            next: e + 1,
        });
    }
    if byte_is(xml, e, b'/') && byte_is(xml, e + 1, b'>') {
        return Lexeme::Empty(Span {
            start: i + 1,
            end: e,
            next: e + 2,
        });
    }
    Lexeme::Bad
}

// A text that begins at i, with the blanks after it: a tag follows them.
fn label_text(xml: &[u8], i: usize) -> Lexeme
    requires { i ≤ length xml.now }
    ensures { LexedAs texting xml.now i result }
{
    let Some(e) = label_part_end(xml, i) else {
        return Lexeme::Bad;
    };
    let t = blanks_end(xml, e);
    if !byte_is(xml, t, b'<') {
        return Lexeme::Bad;
    }
    Lexeme::Label(Span {
        start: i,
        end: e,
        next: t,
    })
}

// The token at a place. It is inlined into the loops over the tokens: else a document of tags alone takes 14 % more
// instructions.
#[inline(always)]
pub(crate) fn next_token(xml: &[u8], at: usize) -> Lexeme
    requires { at ≤ length xml.now }
    ensures { LexedAt xml.now at result }
{
    let i = blanks_end(xml, at);
    if xml.len() <= i {
        return Lexeme::End;
    }
    if xml[i] != b'<' {
        return label_text(xml, i);
    }
    if byte_is(xml, i + 1, b'/') {
        return closing_tag(xml, i);
    }
    opening_tag(xml, i)
}
