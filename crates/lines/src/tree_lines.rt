// The lines that write the tree before anybody logs in (document 01, stages C and D), and what all lines that insert a tree have in common.
ghost use Rattle.std.specs.Prelude.{◌≡◌, true, ◌∷◌, ◌+◌, ◌*◌, ◌≤◌, ◌<◌, length, take, drop};
ghost use Rattle.rights.specs.Limits.{label_max, records_max};
ghost use Rattle.rights.specs.Labels.{same_label, restricted};
ghost use Rattle.rights.specs.Marks.{marks_of};
ghost use Rattle.rights.specs.Table.{count, label, table_ok};
ghost use Rattle.views.specs.declared.insert.Place.TheVariants.{Append};
ghost use Rattle.lines.specs.Effect.{Performs};
ghost use Rattle.lines.specs.Refusal.{first_refusal, numbered, refusal_number};
ghost use Rattle.lines.specs.State.{stage, store_ok};
ghost use Rattle.lines.specs.Work.{tree_restricted, label_check, insert_checks, root_checks, work_root, work_child};

use crate::line::Answer;
use crate::refusals::{Refusal, area_refusal};
use answers::answer::answer_ok;
use forms::stage::Stage;
use rights::labels::is_restricted;
use rights::limits::{COUNT_BYTES, LABEL_AT, LABEL_MAX, RECORD_BYTES, RECORDS_MAX};
use rights::record::put_node;
use rights::table::{capacity_of, put_count};
use views::insert::{Place, has_room, insert_marked, too_deep};

// The refusal of an insertion of a tree of m records at the marked places.
pub(crate) fn insert_refusal(
    table: &[u8],
    marks: &[u8],
    tree: &[u8],
    m: usize,
    place: Place,
) -> Result<(), Refusal>
    requires { (table_ok table.now ≡ true) × (count table.now ≤ length marks.now) × (m * 32 ≤ length tree.now) × (m ≤ records_max) }
    ensures { refusal_number result ≡ first_refusal (insert_checks place (marks_of marks.now) m tree.now table.now) }
{
    if too_deep(table, marks, tree, m, place) {
        return Err(Refusal::LevelTooDeep);
    }
    if !has_room(table, marks, m) {
        return Err(Refusal::TableFull);
    }
    Ok(())
}

// Whether the record at byte `at` of a tree has the label RESTRICTED.
fn record_restricted(tree: &[u8], at: usize) -> bool
    requires { at + 32 ≤ length tree.now }
    ensures { result ≡ same_label (label (take 32 (drop at tree.now))) restricted }
{
    let n = usize::from(tree[at + 1]);
    n <= LABEL_MAX && is_restricted(&tree[at + LABEL_AT..at + LABEL_AT + n])
}

// Whether one of the m records of a tree has that label (refusal 9).
pub(crate) fn tree_restricted(tree: &[u8], m: usize) -> bool
    requires { m * 32 ≤ length tree.now }
    ensures { result ≡ tree_restricted m tree.now }
{
    (0..m).any(|j| record_restricted(tree, j * RECORD_BYTES))
}

// The refusal of `(root L)`, where no root stands.
fn root_refusal(table: &[u8], label: &[u8]) -> Result<(), Refusal>
    requires { (table_ok table.now ≡ true) × (count table.now ≡ 0) }
    ensures { refusal_number result ≡ first_refusal (root_checks table.now label.now) }
{
    if is_restricted(label) {
        return Err(Refusal::BannedLabel);
    }
    if capacity_of(table.len()) < 1 {
        return Err(Refusal::TableFull);
    }
    Ok(())
}

// `(root L)`, where no root stands.
pub fn root(state: &mut [u8], table: &mut [u8], label: &[u8], area: &mut [u8]) -> Answer
    requires { (store_ok state.old table.old ≡ true) × (stage state.old < 2) × (length label.now ≤ label_max) }
    ensures { Performs (work_root table.old label.now)
        state.old table.old area.old (numbered result) state.new table.new area.new }
{
    root_refusal(table, label)?;
    let need = answer_ok(area);
    area_refusal(need, area.len())?;
    put_node(table, COUNT_BYTES, 0, label);
    put_count(table, 1);
    state[0] = u8::from(Stage::C);
    Ok(need)
}

// The refusal of `(child TREE)`, where the marks are those of the root alone.
fn child_refusal(table: &[u8], marks: &[u8], tree: &[u8], m: usize) -> Result<(), Refusal>
    requires { (table_ok table.now ≡ true) × (count table.now ≤ length marks.now) × (m * 32 ≤ length tree.now) × (m ≤ records_max) }
    ensures { refusal_number result ≡ first_refusal (label_check m tree.now
        ∷ insert_checks Append (marks_of marks.now) m tree.now table.now) }
{
    if tree_restricted(tree, m) {
        return Err(Refusal::BannedLabel);
    }
    insert_refusal(table, marks, tree, m, Place::Append)
}

// `(child TREE)`: the tree's m records become the root's last child.
pub fn child(state: &mut [u8], table: &mut [u8], tree: &[u8], m: usize, area: &mut [u8]) -> Answer
    requires { (store_ok state.old table.old ≡ true) × (m * 32 ≤ length tree.now) × (m ≤ records_max) }
    ensures { Performs (work_child table.old m tree.now)
        state.old table.old area.old (numbered result) state.new table.new area.new }
{
    let mut marks = [0u8; RECORDS_MAX];
    marks[0] = 1;
    child_refusal(table, &marks, tree, m)?;
    let need = answer_ok(area);
    area_refusal(need, area.len())?;
    insert_marked(table, &marks, tree, m, Place::Append);
    state[0] = u8::from(Stage::D);
    Ok(need)
}
