#![tactic(auto)]
// The library for C and Rust: one call for every line, one that loads the solver's file, and the size of a state. Each slice is lent as a pointer and a length;
// include/timetable.h tells callers.
ghost use Rattle.std.specs.Prelude.{◌≡◌, length};
ghost use Rattle.lines.specs.Refusal.{numbered};
ghost use Rattle.store.specs.Line.{step};
ghost use Rattle.store.specs.LoadXml.{load_xml};
ghost use Rattle.louvretansy.specs.Library.{state_bytes, return_value, Short, Returned};

use lines::limits::STATE_BYTES;
use lines::line::Answer;

// What is returned for an answer: its length, or minus the number of the refusal.
// Kept: a number, which the C interface returns.
fn returned(answer: Answer) -> i64
    requires { Short (numbered answer) }
    ensures { result ≡ return_value (numbered answer) }
{
    match answer {
        Ok(n) => n as i64,
        Err(refusal) => -i64::from(u8::from(refusal)),
    }
}

// One line: the answer's length, its bytes at the front of the area; or minus the refusal's number, and every byte as it was.
#[unsafe(no_mangle)]
pub extern "C" fn timetable_line(
    state: &mut [u8],
    table: &mut [u8],
    line: &[u8],
    area: &mut [u8],
) -> i64
    ensures { Returned (step state.old table.old line.now (length area.old))
        area.old result state.new table.new area.new }
{
    let answer = store::line::line(state, table, line, area);
    returned(answer)
}

// The solver's file, in place of root and child lines: returned and left as for a line.
#[unsafe(no_mangle)]
pub extern "C" fn timetable_load_xml(
    state: &mut [u8],
    table: &mut [u8],
    xml: &[u8],
    area: &mut [u8],
) -> i64
    ensures { Returned (load_xml state.old table.old xml.now (length area.old))
        area.old result state.new table.new area.new }
{
    let answer = store::load::load_xml(state, table, xml, area);
    returned(answer)
}

// The bytes of a state.
#[unsafe(no_mangle)]
pub extern "C" fn timetable_state_bytes() -> usize
    ensures { result ≡ state_bytes }
{
    STATE_BYTES
}
