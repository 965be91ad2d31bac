// One call for every line (document 01, "Lines" and "Who can be turned down").
ghost use Rattle.std.specs.Prelude.{◌≡◌, true, suc, ◌*◌, ◌≤◌, ◌<◌, length, take, replicate};
ghost use Rattle.rights.specs.Record.{pasted};
ghost use Rattle.forms.specs.Text.{line_ok};
ghost use Rattle.forms.specs.Tree.{records_of};
ghost use Rattle.forms.specs.Layout.{stage_of};
ghost use Rattle.forms.specs.Form.{place_in, part_bytes, read_form, tree_in};
ghost use Rattle.forms.specs.How.Codes.{stage_code, stage_number};
ghost use Rattle.forms.specs.How.Reader.{Ends, FormRead};
ghost use Rattle.lines.specs.State.{stage, store_ok};
ghost use Rattle.lines.specs.Outcome.{Made};
ghost use Rattle.lines.specs.Refusal.{first_refusal, numbered, refusal_number};
ghost use Rattle.lines.specs.Effect.{Performs};
ghost use Rattle.lines.specs.Clause.{work_of};
ghost use Rattle.store.specs.Line.{in_stage, text_checks, form_checks, step};

use forms::form::{Form, read_form};
use forms::layout::Word;
use forms::limits::TREE_BYTES;
use forms::stage::Stage;
use forms::text::line_ok;
use lines::changes::{insert, remove, rename, window};
use lines::line::Answer;
use lines::policy_lines::{declare, relate, rule};
use lines::queries::{Ask, ask_path, sheet, view};
use lines::refusals::Refusal;
use lines::session::{log_in, set_day};
use lines::state::store_ok;
use lines::tree_lines::{child, root};
use rights::limits::RECORD_BYTES;
use views::done::Change;
use views::insert::Place;

// Whether a form of stage k may come where the state is in the stage with number g.
fn in_stage(k: Stage, g: u8) -> bool
    ensures { result ≡ in_stage (stage_code k) g }
{
    let c = u8::from(Stage::C);
    let k = u8::from(k);
    g <= k && (c < k) == (c <= g)
}

// The refusal of a store or of a line's bytes.
fn text_refusal(state: &[u8], table: &[u8], line: &[u8]) -> Result<(), Refusal>
    ensures { refusal_number result ≡ first_refusal (text_checks state.now table.now line.now) }
{
    if !store_ok(state, table) {
        return Err(Refusal::BadStore);
    }
    if !line_ok(line) {
        return Err(Refusal::BadLine);
    }
    Ok(())
}

// The refusal of what is no form, or of a form in the stage with number g.
fn form_refusal(stage: Option<Stage>, g: u8) -> Result<(), Refusal>
    ensures { refusal_number result ≡ first_refusal (form_checks (stage_number stage) g) }
{
    let Some(k) = stage else {
        return Err(Refusal::NoForm);
    };
    if !in_stage(k, g) {
        return Err(Refusal::WrongStage);
    }
    Ok(())
}

// The bytes of the part that stands after place i, as far as the line goes.
fn part_of<'a>(line: &'a [u8], ends: &[usize; 5], i: usize) -> &'a [u8]
    requires { (i < 4) × Ends ends.now }
    ensures { result.now ≡ part_bytes line.now (place_in ends.now i) (place_in ends.now (suc i)) }
{
    let end = ends[i + 1].min(line.len());
    let at = (ends[i] + 1).min(end);
    &line[at..end]
}

// The records of a tree of m nodes.
fn tree_of(tree: &[u8], m: usize) -> &[u8]
    requires { (m ≤ 1024) × (m * 32 ≤ length tree.now) }
    ensures { result.now ≡ take (m * 32) tree.now }
{
    let end = m * RECORD_BYTES;
    &tree[0..end]
}

// The line's own work, one arm a form; `tree` begins with the records of the line's tree.
fn run(
    state: &mut [u8],
    table: &mut [u8],
    line: &[u8],
    tree: &[u8],
    area: &mut [u8],
    f: Form,
) -> Answer
    requires { (store_ok state.old table.old ≡ true) × (line_ok line.now ≡ true) × FormRead line.now f
        × (in_stage (stage_of f.word) (stage state.old) ≡ true)
        × (tree.now ≡ pasted (replicate 16384 0) 0 (records_of (tree_in (read_form line.now)))) }
    ensures { Performs (work_of (read_form line.now) state.old table.old)
        state.old table.old area.old (numbered result) state.new table.new area.new }
{
    let word = f.word;
    let ends = f.ends;
    let says = f.says;
    match word {
        Word::Other => Err(Refusal::NoForm),
        Word::Subject => declare(state, table, part_of(line, &ends, 0), area),
        Word::Isa => relate(
            state,
            table,
            part_of(line, &ends, 0),
            part_of(line, &ends, 1),
            area,
        ),
        Word::Rule => rule(
            state,
            table,
            u8::from(says[0] == 1),
            says[1] as u8,
            part_of(line, &ends, 2),
            part_of(line, &ends, 3),
            area,
        ),
        Word::Root => root(state, table, part_of(line, &ends, 0), area),
        Word::Child => child(state, table, tree_of(tree, says[0]), says[0], area),
        Word::User => log_in(state, table, part_of(line, &ends, 0), area),
        Word::View => view(state, table, area),
        Word::Query => ask_path(Ask::Query, state, table, part_of(line, &ends, 0), area),
        Word::Find => ask_path(Ask::Find, state, table, part_of(line, &ends, 0), area),
        Word::Rename => rename(
            state,
            table,
            Change::Rename,
            part_of(line, &ends, 0),
            part_of(line, &ends, 1),
            area,
        ),
        Word::Update => rename(
            state,
            table,
            Change::Update,
            part_of(line, &ends, 0),
            part_of(line, &ends, 1),
            area,
        ),
        Word::Append => insert(
            state,
            table,
            Place::Append,
            part_of(line, &ends, 0),
            tree_of(tree, says[1]),
            says[1],
            area,
        ),
        Word::Before => insert(
            state,
            table,
            Place::Before,
            part_of(line, &ends, 0),
            tree_of(tree, says[1]),
            says[1],
            area,
        ),
        Word::After => insert(
            state,
            table,
            Place::After,
            part_of(line, &ends, 0),
            tree_of(tree, says[1]),
            says[1],
            area,
        ),
        Word::Remove => remove(state, table, part_of(line, &ends, 0), area),
        Word::Sheet => sheet(state, table, part_of(line, &ends, 0), area),
        Word::Day => set_day(state, table, says[0], area),
        Word::Window => window(
            state,
            table,
            part_of(line, &ends, 0),
            says[1],
            says[2],
            area,
        ),
    }
}

// One line: the answer's bytes are put at the front of the area. Whatever is lent, what is returned and left is `step`.
pub fn line(state: &mut [u8], table: &mut [u8], line: &[u8], area: &mut [u8]) -> Answer
    ensures { Made (step state.old table.old line.now (length area.old))
        area.old (numbered result) state.new table.new area.new }
{
    text_refusal(state, table, line)?;
    let mut tree = [0u8; TREE_BYTES];
    let f = read_form(line, &mut tree);
    form_refusal(f.stage, state[0])?;
    run(state, table, line, &tree, area, f)
}
