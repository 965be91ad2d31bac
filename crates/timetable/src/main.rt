#![tactic(auto)]
// The program (document 01, "Lines", "What is written"): reads lines from standard input, and writes the answer to each to standard output, or `(refused N)`.
// It ends at the end of the input, at its limit, and where standard input or standard output is closed or fails.
ghost use Rattle.std.specs.Prelude.{◌≡◌, ◌≤◌, ◌<◌, true, false, cond, [], leb, length, take, min, is_ok, IfOk, MatchResult};
ghost use Rattle.std.specs.Io.KnownBytes.{ReadConsumes};
ghost use Rattle.store.specs.Line.{step};
ghost use Rattle.timetable.specs.Program.{empty_state, empty_table};
ghost use Rattle.timetable.specs.How.Run.{Prints, Stops, ReadsAll, RunsAll, ended, line_in};
ghost use Rattle.timetable.specs.How.Run.{run_in, byte_taken, byte_hands, overflow, handed, chunk_taken, written, start};
ghost use Rattle.timetable.specs.Streams.{Writes, Answers, AnswersWhole};
ghost use Rattle.timetable.specs.How.Bytes.{Reads, Turned, LinesRead};

use answers::answer::answer_refused;
use forms::limits::LINE_MAX;
use lines::refusals::Refusal;
use std::io;
use std::io::{Read, Write};
use store::line::line;

// A line of so many bytes stands for every longer one.
// Kept: `run`, RunsAll and ReadsAll ask by `used` and 0 if a line is begun; of an Option that asks two cases.
const TOO_LONG: usize = LINE_MAX + 1;
// "The program reads at most 4,294,967,295 bytes"
const INPUT_MAX: usize = 4_294_967_295;
// "The program, whose area has 65,536 bytes"
const AREA_BYTES: usize = 65536;

// Standard output took nothing more, or failed.
#[derive(Clone, Copy)]
struct Closed;

// The bytes that the line has so far, TOO_LONG where they are too many; the answers' bytes that wait to be written.
#[derive(Clone, Copy)]
struct Progress {
    used: usize,
    held: usize,
}

// The bytes that the line has after a read, and the bytes that were read: 0 at the end. Whether the input could be read.
// Kept: `heard` makes no value void: after a read that fails, the line so far is answered as at the end of the input.
#[derive(Clone, Copy)]
struct Turn {
    used: usize,
    got: usize,
    heard: bool,
}

// The same after the last read.
// Kept: `heard` as in Turn
#[derive(Clone, Copy)]
struct LastLine {
    used: usize,
    heard: bool,
}

// Whether the input could be read to its end or its limit, and standard output took every answer.
// Kept: `run` promises of either alone, and both may fail, so a Result would have an error of three kinds.
#[derive(Clone, Copy)]
struct Finish {
    heard: bool,
    open: bool,
}

// Writes the first `held` bytes, as far as the output takes them. It ends at the first write that takes nothing or fails.
fn write_held<W: Write>(output: &mut W, out: &[u8], held: usize) -> Result<(), Closed>
    requires { held ≤ length out.now }
    ensures { Writes (W.contents output.old) (W.contents output.new) (take held out.now) (is_ok result) }
{
    let mut done = 0;
    while done < held {
        let took = output.write(&out[done..held]).unwrap_or(0);
        if took == 0 {
            return Err(Closed);
        }
        done += took;
    }
    Ok(())
}

// Answers a line, or prints its refusal, at the start of the area; how many bytes that takes.
fn answer_line(state: &mut [u8], table: &mut [u8], text: &[u8], area: &mut [u8]) -> usize
    requires { 32 ≤ length area.old }
    ensures { Prints (step state.old table.old text.now (length area.old))
        0 area.old result state.new table.new area.new }
{
    match line(state, table, text, area) {
        Ok(n) => n,
        Err(refusal) => answer_refused(u8::from(refusal), area),
    }
}

// Answers the line that has ended: the first `used` bytes of the buffer, or one that is too long for it.
fn end_line(
    state: &mut [u8],
    table: &mut [u8],
    buffer: &[u8],
    used: usize,
    area: &mut [u8],
) -> usize
    requires { 32 ≤ length area.old }
    ensures { Prints (ended state.old table.old (line_in buffer.now used) (length area.old))
        0 area.old result state.new table.new area.new }
{
    if buffer.len() < used {
        return answer_refused(u8::from(Refusal::BadLine), area);
    }
    answer_line(state, table, &buffer[0..used], area)
}

// The same, with the answer behind the bytes that wait; how many wait then.
fn hold_answer(
    state: &mut [u8],
    table: &mut [u8],
    buffer: &[u8],
    used: usize,
    out: &mut [u8],
    held: usize,
) -> usize
    requires { (length out.old ≡ 131072) × (held ≤ 65536) }
    ensures { Prints (ended state.old table.old (line_in buffer.now used) 65536)
        held out.old result state.new table.new out.new }
{
    let end = held + AREA_BYTES;
    held + end_line(state, table, buffer, used, &mut out[held..end])
}

// Writes what waits where the next answer might not fit behind it. A new line begins.
fn make_room<W: Write>(output: &mut W, out: &[u8], held: usize) -> Result<Progress, Closed>
    requires { held ≤ length out.now }
    ensures room { MatchResult result (λ p. (p.used ≡ 0) × (p.held ≡ cond (leb held 65536) held 0)) (λ _. 65536 < held) }
    ensures writes { Writes (W.contents output.old) (W.contents output.new) (overflow (take held out.now)) (is_ok result) }
{
    if held <= AREA_BYTES {
        return Ok(Progress { used: 0, held });
    }
    write_held(output, out, held)?;
    Ok(Progress { used: 0, held: 0 })
}

// Takes one byte of the input.
fn take_byte<W: Write>(
    output: &mut W,
    state: &mut [u8],
    table: &mut [u8],
    buffer: &mut [u8],
    used: usize,
    out: &mut [u8],
    held: usize,
    b: u8,
) -> Result<Progress, Closed>
    requires { (length buffer.old ≡ 1024) × (used ≤ 1025) × (length out.old ≡ 131072) × (held ≤ 65536) }
    ensures run { MatchResult result
        (λ p. (p.used ≤ 1025) × (p.held ≤ 65536)
        × (run_in state.new table.new buffer.new p.used out.new p.held
        ≡ byte_taken (run_in state.old table.old buffer.old used out.old held) b))
        (λ _. (run_in state.new table.new buffer.new 0 out.new 0
        ≡ byte_taken (run_in state.old table.old buffer.old used out.old held) b)
        × (byte_hands (run_in state.old table.old buffer.old used out.old held) b ≡ [] → ⊥)) }
    ensures writes { Writes (W.contents output.old) (W.contents output.new)
        (byte_hands (run_in state.old table.old buffer.old used out.old held) b) (is_ok result) }
{
    if b == b'\n' {
        let waiting = hold_answer(state, table, &buffer[..], used, out, held);
        return make_room(output, &out[..], waiting);
    }
    if used < LINE_MAX {
        buffer[used] = b;
        return Ok(Progress {
            used: used + 1,
            held,
        });
    }
    Ok(Progress {
        used: TOO_LONG,
        held,
    })
}

// Takes the bytes of a chunk, as long as standard output takes the answers. Nothing waits before it.
fn take_chunk<W: Write>(
    output: &mut W,
    state: &mut [u8],
    table: &mut [u8],
    buffer: &mut [u8],
    from: usize,
    out: &mut [u8],
    chunk: &[u8],
) -> Result<Progress, Closed>
    requires { (length buffer.old ≡ 1024) × (from ≤ 1025) × (length out.old ≡ 131072) }
    ensures run { MatchResult result
        (λ p. (p.used ≤ 1025) × (p.held ≤ 65536)
        × (run_in state.new table.new buffer.new p.used out.new p.held
        ≡ chunk_taken (run_in state.old table.old buffer.old from out.old 0) chunk.now))
        (λ _. Stops (run_in state.old table.old buffer.old from out.old 0) chunk.now
        (run_in state.new table.new buffer.new 0 out.new 0)) }
    ensures writes { Writes (W.contents output.old) (W.contents output.new)
        (handed (run_in state.old table.old buffer.old from out.old 0) chunk.now) (is_ok result) }
{
    let mut used = from;
    let mut held = 0;
    for &b in chunk {
        let p = take_byte(output, state, table, buffer, used, out, held, b)?;
        used = p.used;
        held = p.held;
    }
    Ok(Progress { used, held })
}

// Reads once; how many bytes came, 0 at the end of the input.
fn read_once<R: Read>(input: &mut R, part: &mut [u8]) -> io::Result<usize>
    ensures bound { IfOk result (λ n. n ≤ length part.new) }
    ensures bytes { ReadConsumes (R.remaining input.old) (R.remaining input.new) result part.new }
{
    input.read(part)
}

// The same, of at most `most` bytes.
fn read_chunk<R: Read>(input: &mut R, chunk: &mut [u8], most: usize) -> io::Result<usize>
    ensures bound { IfOk result (λ n. (n ≤ most) × (n ≤ length chunk.new)) }
    ensures bytes { Reads (R.remaining input.old) (R.remaining input.new) result most chunk.new }
{
    let n = most.min(chunk.len());
    read_once(input, &mut chunk[0..n])
}

// Reads at most `left` bytes, and writes the answers to the lines that end in them. A failed read is the end. Where standard output fails, all ends: no byte read, and no line begun.
fn read_turn<R: Read, W: Write>(
    input: &mut R,
    output: &mut W,
    state: &mut [u8],
    table: &mut [u8],
    buffer: &mut [u8],
    used: usize,
    out: &mut [u8],
    chunk: &mut [u8],
    left: usize,
) -> Result<Turn, Closed>
    requires { (length buffer.old ≡ 1024) × (used ≤ 1025) × (length out.old ≡ 131072) }
    ensures run { IfOk result (λ t. (t.used ≤ 1025) × (t.got ≤ left) × (t.got ≤ length chunk.new)
        × (run_in state.new table.new buffer.new t.used out.new 0
        ≡ written (chunk_taken (run_in state.old table.old buffer.old used out.old 0)
        (take t.got chunk.new)))) }
    ensures bytes { MatchResult result
        (λ t. Turned (run_in state.old table.old buffer.old used out.old 0)
        (run_in state.new table.new buffer.new t.used out.new 0)
        (R.remaining input.old) (R.remaining input.new)
        (W.contents output.old) (W.contents output.new)
        left (length chunk.old) t.used t.got t.heard true)
        (λ _. Turned (run_in state.old table.old buffer.old used out.old 0)
        (run_in state.new table.new buffer.new 0 out.new 0)
        (R.remaining input.old) (R.remaining input.new)
        (W.contents output.old) (W.contents output.new)
        left (length chunk.old) 0 0 false false) }
{
    let Ok(got) = read_chunk(input, chunk, left) else {
        return Ok(Turn {
            used,
            got: 0,
            heard: false,
        });
    };
    let p = take_chunk(output, state, table, buffer, used, out, &chunk[0..got])?;
    write_held(output, &out[..], p.held)?;
    Ok(Turn {
        used: p.used,
        got,
        heard: true,
    })
}

// Reads to the end of the input or to its limit, and answers every line that has its line feed; how many bytes the last one has, which lacks it.
fn read_lines<R: Read, W: Write>(
    input: &mut R,
    output: &mut W,
    state: &mut [u8],
    table: &mut [u8],
    buffer: &mut [u8],
    out: &mut [u8],
    chunk: &mut [u8],
) -> Result<LastLine, Closed>
    requires { (state.old ≡ empty_state) × (table.old ≡ empty_table) × (length buffer.old ≡ 1024) × (length out.old ≡ 131072) }
    ensures run { MatchResult result
        (λ l. ReadsAll start (run_in state.new table.new buffer.new l.used out.new 0) l.used)
        (λ _. ReadsAll start (run_in state.new table.new buffer.new 0 out.new 0) 0) }
    ensures bytes { MatchResult result
        (λ l. LinesRead (run_in state.new table.new buffer.new l.used out.new 0)
        (R.remaining input.old) (R.remaining input.new)
        (W.contents output.old) (W.contents output.new)
        (length chunk.old) l.used l.heard true)
        (λ _. LinesRead (run_in state.new table.new buffer.new 0 out.new 0)
        (R.remaining input.old) (R.remaining input.new)
        (W.contents output.old) (W.contents output.new)
        (length chunk.old) 0 false false) }
{
    let mut used: usize = 0;
    let mut left: usize = INPUT_MAX;
    while 0 < left {
        let t = read_turn(input, output, state, table, buffer, used, out, chunk, left)?;
        used = t.used;
        if t.got == 0 {
            return Ok(LastLine {
                used,
                heard: t.heard,
            });
        }
        left -= t.got;
    }
    Ok(LastLine { used, heard: true })
}

// "a last line that is not empty may lack its line feed"
fn run<R: Read, W: Write>(
    input: &mut R,
    output: &mut W,
    state: &mut [u8],
    table: &mut [u8],
    buffer: &mut [u8],
    out: &mut [u8],
    chunk: &mut [u8],
) -> Finish
    requires { (state.old ≡ empty_state) × (table.old ≡ empty_table) × (length buffer.old ≡ 1024) × (length out.old ≡ 131072) }
    ensures run { RunsAll out.new }

    // What was read is answered, as far as the output took the answers.
    ensures answers { Answers (R.remaining input.old) (R.remaining input.new)
        (W.contents output.old) (W.contents output.new) result.open }

    // An input that could be read to its end has its answers in an output that took them.
    ensures whole { 0 < length chunk.old → result.heard ≡ true → result.open ≡ true
        → AnswersWhole (R.remaining input.old) (W.contents output.old) (W.contents output.new) }
{
    let Ok(last) = read_lines(input, output, state, table, buffer, out, chunk) else {
        return Finish {
            heard: false,
            open: false,
        };
    };
    let used = last.used;
    if 0 < used {
        let held = hold_answer(state, table, &buffer[..], used, out, 0);
        let wrote = write_held(output, &out[..], held).is_ok();
        return Finish {
            heard: last.heard,
            open: wrote,
        };
    }
    Finish {
        heard: last.heard,
        open: true,
    }
}

// An empty state, and an empty table of 1,024 records (docs/FORMAT.md).
fn empty_state() -> [u8; 68880]
    ensures { (68880 ≡ length result) × (result ≡ empty_state) }
{
    [0; 68880]
}

fn empty_table() -> [u8; 32772]
    ensures { (32772 ≡ length result) × (result ≡ empty_table) }
{
    [0; 32772]
}

// Room for an area behind as many bytes that wait.
fn output_buffer() -> [u8; 131072]
    ensures { 131072 ≡ length result }
{
    [0; 131072]
}

// Room for what one read brings.
fn input_chunk() -> [u8; 65536]
    ensures { 65536 ≡ length result }
{
    [0; 65536]
}

fn main(rt: HostRuntime) {
    let mut state = empty_state();
    let mut table = empty_table();
    let mut buffer = [0u8; LINE_MAX];
    let mut out = output_buffer();
    let mut chunk = input_chunk();
    run(
        &mut rt.stdin(),
        &mut rt.stdout(),
        &mut state,
        &mut table,
        &mut buffer,
        &mut out,
        &mut chunk,
    );
}
