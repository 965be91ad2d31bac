#![tactic(auto)]
// Runs cases of the lower crate from standard input, a line each, and prints an answer for each line that asks. Numbers and bytes are hexadecimal.
//   p PATH     whether a path is well formed
//   t BYTES    puts these bytes as the table, and says whether they are one
//   z NNNNNN   so many zero bytes as the policy
//   q NNNNNN BYTES   puts bytes into the policy, from that place on
//   k          whether the policy is one
//   w LABEL    whether a label is a policy word
//   r UU       the rights of subject UU on each node
//   h NUMBERS  which nodes are shown: their numbers, two bytes each, the higher first
//   s UU PATH  which of the shown nodes a path selects
// Any other line is left out. tests/make_cases.py writes the lines, and their answers from document 01.
ghost use Rattle.std.specs.Prelude.{◌≡◌, ◌≤◌, ◌<◌, length};

#[cfg(test)]
mod tests;

use std::io::Read;
use trials::{
    TrialError, trial_path, trial_policy, trial_rights, trial_select, trial_table, trial_word,
};

// Where a line's first part starts; a number of three bytes ends 6 digits later, a subject's number 2 digits later.
const PART_AT: usize = 2;

const AFTER_PLACE: usize = 9;

const AFTER_SUBJECT: usize = 5;
// A byte that is no mark and no set of rights: what was not written still has it.
// Kept: a byte to look for, no kind.
const UNTOUCHED: u8 = 255;

// How much of each area is used.
#[derive(Clone, Copy)]
struct Lengths {
    table: usize,
    policy: usize,
    shown: usize,
}

// What the lines have put, and room for what a call writes.
#[derive(Drop)]
struct Areas {
    table: [u8; 4096],
    policy: [u8; 68873],
    shown: [u16; 64],
    out: [u8; 64],
    lengths: Lengths,
}

// What the output doesn't take is lost, and the cases go on.
fn say(to: &impl Print, text: &[u8]) {
    let _ = to.write_all(text);
}

// Yes or no, or neither.
fn say_whether(to: &impl Print, answer: Option<bool>) {
    match answer {
        Some(true) => say(to, b"yes\n"),
        Some(false) => say(to, b"no\n"),
        None => say(to, b"refused\n"),
    }
}

// The value of a hexadecimal digit, and 0 of any other byte.
fn digit(b: u8) -> u8
    ensures { result < 16 }
{
    match b {
        b'0'..=b'9' => b - b'0',
        b'a'..=b'f' => b - b'a' + 10,
        _ => 0,
    }
}

// The byte that two digits write.
fn byte(high: u8, low: u8) -> u8 {
    digit(high) * 16 + digit(low)
}

// The first n elements, or all.
fn part<T>(s: &[T], n: usize) -> &[T] {
    let e = n.min(s.len());
    &s[..e]
}

// All from a place on, or nothing.
fn rest(s: &[u8], n: usize) -> &[u8] {
    let a = n.min(s.len());
    &s[a..]
}

// The byte that stands at a place of a line, and 0 past the end.
fn byte_at(line: &[u8], i: usize) -> u8 {
    if i < line.len() { line[i] } else { 0 }
}

// The byte that two digits from a place on write, and the number that six write.
fn read_byte(line: &[u8], i: usize) -> u8
    requires { i < 4096 }
{
    byte(byte_at(line, i), byte_at(line, i + 1))
}

fn read_subject(line: &[u8]) -> usize {
    usize::from(read_byte(line, PART_AT))
}

fn read_place(line: &[u8]) -> usize {
    let high = read_byte(line, PART_AT);
    let middle = read_byte(line, PART_AT + 2);
    let low = read_byte(line, PART_AT + 4);
    u32::from_be_bytes([0, high, middle, low]) as usize
}

// Puts the bytes that the digits of s write into out, from a place on; answers the place after them.
fn put_bytes(s: &[u8], from: usize, out: &mut [u8]) -> usize {
    let mut at = from;
    for i in 0..s.len() / 2 {
        if out.len() <= at {
            return at;
        }
        out[at] = byte(s[i * 2], s[i * 2 + 1]);
        at += 1;
    }
    at
}

// Puts numbers of two bytes into out; answers how many.
fn put_numbers(s: &[u8], out: &mut [u16]) -> usize {
    let n = (s.len() / 4).min(out.len());
    for i in 0..n {
        let high = byte(s[i * 4], s[i * 4 + 1]);
        let low = byte(s[i * 4 + 2], s[i * 4 + 3]);
        out[i] = u16::from_be_bytes([high, low]);
    }
    n
}

fn say_byte(to: &impl Print, b: u8) {
    let _ = print!(to; "{b:02x}");
}

// Prints the bytes that were written.
fn say_written(to: &impl Print, out: &[u8]) {
    for &b in out {
        if b == UNTOUCHED {
            break;
        }
        say_byte(to, b);
    }
    say(to, b"\n");
}

// The answer of a call that writes: what it wrote, or its refusal.
fn say_answer(to: &impl Print, answer: Result<usize, TrialError>, out: &[u8]) {
    match answer {
        Ok(_) => say_written(to, out),
        Err(TrialError::NotWellFormed) => say(to, b"not well formed\n"),
        Err(TrialError::NotAsked) => say(to, b"refused\n"),
    }
}

// A line that puts.
fn put(kind: u8, line: &[u8], areas: &mut Areas) {
    match kind {
        b't' => areas.lengths.table = put_bytes(rest(line, PART_AT), 0, &mut areas.table),
        b'z' => {
            areas.policy.fill(0);
            areas.lengths.policy = read_place(line);
        }
        b'q' => {
            put_bytes(rest(line, AFTER_PLACE), read_place(line), &mut areas.policy);
        }
        b'h' => areas.lengths.shown = put_numbers(rest(line, PART_AT), &mut areas.shown),
        _ => {}
    }
}

// A line that asks.
fn ask(to: &impl Print, kind: u8, line: &[u8], areas: &mut Areas) {
    let table = part(&areas.table, areas.lengths.table);
    let policy = part(&areas.policy, areas.lengths.policy);
    let shown = part(&areas.shown, areas.lengths.shown);
    let out = &mut areas.out;
    match kind {
        b'p' => say_whether(to, Some(trial_path(rest(line, PART_AT)))),
        b't' => say_whether(to, Some(trial_table(table))),
        b'k' => say_whether(to, Some(trial_policy(policy))),
        b'w' => say_whether(to, trial_word(policy, rest(line, PART_AT))),
        b'r' => {
            out.fill(UNTOUCHED);
            let answer = trial_rights(policy, read_subject(line), table, out);
            let answer = answer.ok_or(TrialError::NotAsked);
            say_answer(to, answer, &out[..]);
        }
        b's' => {
            out.fill(UNTOUCHED);
            let path = rest(line, AFTER_SUBJECT);
            let answer = trial_select(policy, read_subject(line), table, shown, path, out);
            say_answer(to, answer, &out[..]);
        }
        _ => {}
    }
}

fn take_line(to: &impl Print, line: &[u8], areas: &mut Areas) {
    let kind = byte_at(line, 0);
    put(kind, line, areas);
    ask(to, kind, line, areas);
}

fn take_lines(to: &impl Print, input: &[u8], areas: &mut Areas) {
    for line in input.split(|b| *b == b'\n') {
        take_line(to, line, areas);
    }
}

// Room for a policy and a byte more.
fn policy_area() -> [u8; 68873]
    ensures { 68873 ≡ length result }
{
    [0; 68873]
}

// Room for the input.
fn input_area() -> [u8; 65536]
    ensures { 65536 ≡ length result }
{
    [0; 65536]
}

// Reads until the area is full, the input ends or a read fails; how many bytes came.
fn read_input(from: &mut impl Read, input: &mut [u8]) -> usize
    ensures { result ≤ length input.new }
{
    let mut n = 0;
    while n < input.len() {
        let got = from.read(&mut input[n..]).unwrap_or(0);
        if got == 0 {
            return n;
        }
        n += got;
    }
    n
}

fn main(rt: HostRuntime) {
    let mut input = input_area();
    let n = read_input(&mut rt.stdin(), &mut input);
    let mut areas = Areas {
        table: [0; 4096],
        policy: policy_area(),
        shown: [0; 64],
        out: [UNTOUCHED; 64],
        lengths: Lengths {
            table: 0,
            policy: 0,
            shown: 0,
        },
    };
    take_lines(&rt, part(&input, n), &mut areas);
}
