// The seven changes (document 01, stage E and "Changes"; document 02, card 7). Everything is decided, and the answer put, before a byte of the table is written.
ghost use Rattle.std.specs.Prelude.{◌≡◌, true, ◌||◌, ◌*◌, ◌≤◌, length, take};
ghost use Rattle.rights.specs.Limits.{label_max, records_max};
ghost use Rattle.rights.specs.Labels.{same_label, restricted};
ghost use Rattle.rights.specs.Policy.{policy_word};
ghost use Rattle.rights.specs.Table.{count, table_ok};
ghost use Rattle.rights.specs.Marks.{marks_of, mark_count};
ghost use Rattle.answers.specs.Answer.{done_text};
ghost use Rattle.answers.specs.How.AnswerArea.{Answered};
ghost use Rattle.lines.specs.How.ChangeRoom.{Decided, MarkedFor};
ghost use Rattle.lines.specs.Effect.{Performs};
ghost use Rattle.lines.specs.Refusal.{Passed, first_refusal, numbered, refusal_number};
ghost use Rattle.lines.specs.State.{stage, policy_in, store_ok};
ghost use Rattle.lines.specs.Work.{on_view, count_text, rename_checks, tree_checks, window_checks, change_at, insert_at, work_rename, work_insert, work_remove, work_window};

use crate::limits::POLICY_AT;
use crate::line::Answer;
use crate::queries::{path_refusal, select_user};
use crate::refusals::{Refusal, area_refusal};
use crate::tree_lines::{insert_refusal, tree_restricted};
use answers::answer::answer_done;
use rights::labels::is_restricted;
use rights::limits::{ALL_RIGHTS, RECORDS_MAX};
use rights::marks::count_marks;
use rights::policy::is_policy_word;
use rights::table::{count_of, window_ok};
use views::done::{Change, mark_done};
use views::insert::{Place, insert_marked};
use views::remove::remove_marked;
use views::rename::{redate_marked, rename_marked};

// Writes the marks of the records that the change does, and returns how many nodes are selected.
fn mark_change(state: &[u8], table: &[u8], change: Change, path: &[u8], done: &mut [u8]) -> usize
    requires { (store_ok state.now table.now ≡ true) × Passed (on_view path.now state.now) × (length done.old ≡ records_max) }
    ensures { Decided change state.now table.now path.now done.old result done.new }
{
    let mut rights = [0u8; RECORDS_MAX];
    let mut shown = [0u16; RECORDS_MAX];
    let mut marks = [0u8; RECORDS_MAX];
    let k = select_user(
        state,
        table,
        path,
        ALL_RIGHTS,
        &mut rights,
        &mut shown,
        &mut marks,
    );
    let n = count_of(table);
    mark_done(
        change,
        &state[POLICY_AT..],
        table,
        &rights[0..n],
        &shown[0..k],
        &marks[0..k],
        done,
    );
    count_marks(&marks[..k])
}

// Answers a change of which `selected` nodes are selected and the marked records done.
fn answer_change(table: &[u8], selected: usize, done: &[u8], area: &mut [u8]) -> usize
    requires { (table_ok table.now ≡ true) × (count table.now ≤ length done.now) }
    ensures { Answered (done_text selected (mark_count (take (count table.now) (marks_of done.now)))) area.old
        area.new result }
{
    let n = count_of(table);
    let d = count_marks(&done[..n]);
    answer_done(selected, d, area)
}

// Marks the records that a change does, and answers it.
fn answer_marked(
    state: &[u8],
    table: &[u8],
    change: Change,
    path: &[u8],
    done: &mut [u8],
    area: &mut [u8],
) -> usize
    requires { (store_ok state.now table.now ≡ true) × Passed (on_view path.now state.now) × (length done.old ≡ records_max) }
    ensures { MarkedFor change state.now table.now path.now done.old done.new
        × Answered (count_text change state.now table.now path.now) area.old area.new result }
{
    let k = mark_change(state, table, change, path, done);
    let n = count_of(table);
    answer_change(table, k, &done[0..n], area)
}

// Whether a label is none that a node may get by rename or update: RESTRICTED, or a policy word.
fn is_barred(state: &[u8], table: &[u8], label: &[u8]) -> bool
    requires { store_ok state.now table.now ≡ true }
    ensures { result ≡ (same_label label.now restricted || policy_word (policy_in state.now) label.now) }
{
    is_restricted(label) || is_policy_word(&state[POLICY_AT..], label)
}

// The refusal of `(rename P L)` and `(update P L)`.
fn rename_refusal(state: &[u8], table: &[u8], path: &[u8], label: &[u8]) -> Result<(), Refusal>
    requires { store_ok state.now table.now ≡ true }
    ensures { refusal_number result ≡ first_refusal (rename_checks state.now path.now label.now) }
{
    path_refusal(state, path)?;
    if is_barred(state, table, label) {
        return Err(Refusal::BannedLabel);
    }
    Ok(())
}

// `(rename P L)` and `(update P L)`.
pub fn rename(
    state: &[u8],
    table: &mut [u8],
    change: Change,
    path: &[u8],
    label: &[u8],
    area: &mut [u8],
) -> Answer
    requires { (store_ok state.now table.old ≡ true) × (length label.now ≤ label_max) }
    ensures { Performs (work_rename change state.now table.old path.now label.now)
        state.now table.old area.old (numbered result) state.now table.new area.new }
{
    rename_refusal(state, table, path, label)?;
    let mut done = [0u8; RECORDS_MAX];
    let need = answer_marked(state, table, change, path, &mut done, area);
    area_refusal(need, area.len())?;
    let n = count_of(table);
    rename_marked(table, &done[0..n], label);
    Ok(need)
}

// `(remove P)`.
pub fn remove(state: &[u8], table: &mut [u8], path: &[u8], area: &mut [u8]) -> Answer
    requires { store_ok state.now table.old ≡ true }
    ensures { Performs (work_remove state.now table.old path.now)
        state.now table.old area.old (numbered result) state.now table.new area.new }
{
    path_refusal(state, path)?;
    let mut done = [0u8; RECORDS_MAX];
    let need = answer_marked(state, table, Change::Remove, path, &mut done, area);
    area_refusal(need, area.len())?;
    let n = count_of(table);
    remove_marked(table, &done[0..n]);
    Ok(need)
}

// The refusal of `(window P F T)`.
fn window_refusal(state: &[u8], path: &[u8], first: usize, last: usize) -> Result<(), Refusal>
    requires { 2 ≤ length state.now }
    ensures { refusal_number result ≡ first_refusal (window_checks state.now path.now first last) }
{
    path_refusal(state, path)?;
    if !window_ok(first, last) {
        return Err(Refusal::BadDay);
    }
    Ok(())
}

// `(window P F T)`: the days first and last.
pub fn window(
    state: &[u8],
    table: &mut [u8],
    path: &[u8],
    first: usize,
    last: usize,
    area: &mut [u8],
) -> Answer
    requires { store_ok state.now table.old ≡ true }
    ensures { Performs (work_window state.now table.old path.now first last)
        state.now table.old area.old (numbered result) state.now table.new area.new }
{
    window_refusal(state, path, first, last)?;
    let mut done = [0u8; RECORDS_MAX];
    let need = answer_marked(state, table, Change::Window, path, &mut done, area);
    area_refusal(need, area.len())?;
    let n = count_of(table);
    redate_marked(table, &done[0..n], first, last);
    Ok(need)
}

// The change that inserts at a place.
fn change_at(place: Place) -> Change
    ensures { result ≡ change_at place }
{
    match place {
        Place::Append => Change::Append,
        Place::After => Change::After,
        Place::Before => Change::Before,
    }
}

// The refusal of `(append P TREE)`, `(before P TREE)` and `(after P TREE)` before anything is selected.
fn tree_refusal(state: &[u8], path: &[u8], tree: &[u8], m: usize) -> Result<(), Refusal>
    requires { (2 ≤ length state.now) × (m * 32 ≤ length tree.now) }
    ensures { refusal_number result ≡ first_refusal (tree_checks state.now path.now m tree.now) }
{
    path_refusal(state, path)?;
    if tree_restricted(tree, m) {
        return Err(Refusal::BannedLabel);
    }
    Ok(())
}

// Inserts the tree at the places that are done, of `selected` nodes selected, if nothing refuses it.
fn insert_done(
    state: &[u8],
    table: &mut [u8],
    place: Place,
    selected: usize,
    done: &[u8],
    tree: &[u8],
    m: usize,
    area: &mut [u8],
) -> Answer
    requires { (1 ≤ length state.now) × (table_ok table.old ≡ true) × (count table.old ≤ length done.now) × (m * 32 ≤ length tree.now)
        × (m ≤ records_max) }
    ensures { Performs (insert_at place (marks_of done.now) m tree.now
        (done_text selected (mark_count (take (count table.old) (marks_of done.now)))) (stage state.now)
        table.old)
        state.now table.old area.old (numbered result) state.now table.new area.new }
{
    insert_refusal(table, done, tree, m, place)?;
    let need = answer_change(table, selected, done, area);
    area_refusal(need, area.len())?;
    insert_marked(table, done, tree, m, place);
    Ok(need)
}

// `(append P TREE)`, `(before P TREE)` and `(after P TREE)`: a tree of m records.
pub fn insert(
    state: &[u8],
    table: &mut [u8],
    place: Place,
    path: &[u8],
    tree: &[u8],
    m: usize,
    area: &mut [u8],
) -> Answer
    requires { (store_ok state.now table.old ≡ true) × (m * 32 ≤ length tree.now) × (m ≤ records_max) }
    ensures { Performs (work_insert place state.now table.old path.now m tree.now)
        state.now table.old area.old (numbered result) state.now table.new area.new }
{
    tree_refusal(state, path, tree, m)?;
    let mut done = [0u8; RECORDS_MAX];
    let k = mark_change(state, table, change_at(place), path, &mut done);
    let n = count_of(table);
    insert_done(state, table, place, k, &done[0..n], tree, m, area)
}
