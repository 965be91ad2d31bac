// The lines that only look: view, query, find (document 01, stage E), sheet (document 02, card 3). Each is answered from the user's view alone.
ghost use Rattle.std.specs.Prelude.{◌≡◌, true, ◌++◌, ◌≤◌, length, drop};
ghost use Rattle.rights.specs.Limits.{records_max};
ghost use Rattle.rights.specs.Marks.{marks_of, keep};
ghost use Rattle.rights.specs.How.Roles.{OwnFirst};
ghost use Rattle.rights.specs.How.Numbers.{Fits, view_of};
ghost use Rattle.views.specs.How.Numbers.{shown_numbers};
ghost use Rattle.answers.specs.How.AnswerArea.{Answered};
ghost use Rattle.lines.specs.How.ChangeRoom.{AskedHeld, Chosen, ForView};
ghost use Rattle.lines.specs.How.Looks.{printed, work_look};
ghost use Rattle.lines.specs.Effect.{Performs};
ghost use Rattle.lines.specs.Refusal.{Passed, first_refusal, numbered, refusal_number};
ghost use Rattle.lines.specs.State.{user_of, policy_bytes, store_ok};
ghost use Rattle.lines.specs.UserView.{stored_in};
ghost use Rattle.lines.specs.Work.{view_checks, on_view, answer_to, work_view, work_sheet, work_ask};

use crate::limits::POLICY_AT;
use crate::line::Answer;
use crate::refusals::{Refusal, area_refusal};
use crate::state::day_in;
use answers::answer::{answer_find, answer_query, answer_view};
use answers::sheet::answer_sheet;
use rights::isa::{own_subjects, roles_of};
use rights::limits::{RECORDS_MAX, SUBJECTS_MAX, VIEW_RIGHTS};
use rights::nodes::Shown;
use rights::path::check_path;
use rights::rights::asked_on;
use rights::selection::select;
use views::shown::show;

// What is printed of a view.
//
// Kept: a closure that prints needs F.pre and F.post at three references, longer than these two arms.
#[derive(Clone, Copy)]
enum Look {
    View,
    Sheet,
}

// What is asked of a path.
//
// Kept: as for Look; and `work_ask` (specs/Work) and the laws of query and find name it.
#[derive(Clone, Copy)]
pub enum Ask {
    Query,
    Find,
}

// The refusal of a line that needs a user.
fn view_refusal(state: &[u8]) -> Result<(), Refusal>
    requires { 2 ≤ length state.now }
    ensures { refusal_number result ≡ first_refusal (view_checks state.now) }
{
    if state[1] == 0 {
        return Err(Refusal::NoUserYet);
    }
    Ok(())
}

// The refusal of a line that runs a path on the view.
pub(crate) fn path_refusal(state: &[u8], path: &[u8]) -> Result<(), Refusal>
    requires { 2 ≤ length state.now }
    ensures { refusal_number result ≡ first_refusal (on_view path.now state.now) }
{
    let Some(_) = check_path(path) else {
        return Err(Refusal::BadPath);
    };
    view_refusal(state)
}

// Kept: no heap, so the subjects stand in an array of their most, with how many they are.
//
// What is worked out of a user: the subjects for which `$` stands, in the first `own` places of `subjects`, and how many nodes are shown.
#[derive(Clone, Copy)]
struct Seen {
    subjects: [u8; 64],
    own: usize,
    nodes: usize,
}

// Writes the asked rights of the user on each node, position and read among them, and the numbers of the nodes that the user is shown.
fn show_user(state: &[u8], table: &[u8], asked: u8, rights: &mut [u8], shown: &mut [u16]) -> Seen
    requires { (store_ok state.now table.now ≡ true) × Passed (view_checks state.now) × ForView asked
        × (length rights.old ≡ records_max) × (length shown.old ≡ records_max) }
    ensures { OwnFirst (policy_bytes state.now) (user_of state.now) result.subjects result.own
        × (result.nodes ≡ length (shown_numbers (stored_in state.now table.now)))
        × (shown.new ≡ shown_numbers (stored_in state.now table.now) ++ drop result.nodes shown.old)
        × AskedHeld asked state.now table.now rights.old rights.new }
{
    let policy = &state[POLICY_AT..];
    let user = usize::from(state[1]) - 1;
    let roles = roles_of(policy, user);
    let mut subjects = [0u8; SUBJECTS_MAX];
    let own = own_subjects(policy, user, &roles, &mut subjects);
    asked_on(
        policy,
        user,
        &roles,
        &subjects[0..own],
        table,
        asked,
        rights,
    );
    let nodes = show(table, &rights[..], day_in(state), shown);
    Seen {
        subjects: subjects,
        own: own,
        nodes: nodes,
    }
}

// Prints what is asked of the shown nodes.
fn answer_look(look: Look, table: &[u8], shown: &[u16], room: &[u8], area: &mut [u8]) -> usize
    requires { Fits table.now shown.now }
    ensures { Answered (printed look room.now (view_of table.now shown.now))
        area.old area.new result }
{
    let shown = Shown {
        table,
        numbers: shown,
    };
    match look {
        Look::View => answer_view(&shown, area),
        Look::Sheet => answer_sheet(&shown, room, area),
    }
}

// Prints the user's view, or a sheet of it.
fn print_view(look: Look, state: &[u8], table: &[u8], room: &[u8], area: &mut [u8]) -> Answer
    requires { store_ok state.now table.now ≡ true }
    ensures { Performs (work_look look state.now table.now room.now)
        state.now table.now area.old (numbered result) state.now table.now area.new }
{
    view_refusal(state)?;
    let mut rights = [0u8; RECORDS_MAX];
    let mut shown = [0u16; RECORDS_MAX];
    let seen = show_user(state, table, VIEW_RIGHTS, &mut rights, &mut shown);
    let k = seen.nodes;
    let need = answer_look(look, table, &shown[0..k], room, area);
    area_refusal(need, area.len())?;
    Ok(need)
}

// `(view)`.
pub fn view(state: &[u8], table: &[u8], area: &mut [u8]) -> Answer
    requires { store_ok state.now table.now ≡ true }
    ensures { Performs (work_view state.now table.now)
        state.now table.now area.old (numbered result) state.now table.now area.new }
{
    print_view(Look::View, state, table, b"", area)
}

// `(sheet ROOM)`.
pub fn sheet(state: &[u8], table: &[u8], room: &[u8], area: &mut [u8]) -> Answer
    requires { store_ok state.now table.now ≡ true }
    ensures { Performs (work_sheet state.now table.now room.now)
        state.now table.now area.old (numbered result) state.now table.now area.new }
{
    print_view(Look::Sheet, state, table, room, area)
}

// Writes the asked rights of the user on each node, the numbers of the nodes that the user is shown and the marks of those that a path selects, and returns
// how many are shown.
pub(crate) fn select_user(
    state: &[u8],
    table: &[u8],
    path: &[u8],
    asked: u8,
    rights: &mut [u8],
    shown: &mut [u16],
    marks: &mut [u8],
) -> usize
    requires { (store_ok state.now table.now ≡ true) × Passed (on_view path.now state.now) × ForView asked
        × (length rights.old ≡ records_max) × (length shown.old ≡ records_max) × (length marks.old ≡ records_max) }
    ensures { (Chosen state.now table.now path.now shown.old marks.old result
        shown.new marks.new)
        × AskedHeld asked state.now table.now rights.old rights.new }
{
    let seen = show_user(state, table, asked, rights, shown);
    let subjects = seen.subjects;
    let m = seen.own;
    let k = seen.nodes;
    let nodes = Shown {
        table,
        numbers: &shown[0..k],
    };
    select(&state[POLICY_AT..], &subjects[0..m], &nodes, path, marks);
    k
}

// Answers what is asked of the marked ones of the shown nodes.
fn answer_ask(ask: Ask, table: &[u8], shown: &[u16], marks: &[u8], area: &mut [u8]) -> usize
    requires { (Fits table.now shown.now) × (length shown.now ≤ length marks.now) }
    ensures { Answered (answer_to ask (keep (marks_of marks.now) (view_of table.now shown.now)))
        area.old area.new result }
{
    let shown = Shown {
        table,
        numbers: shown,
    };
    match ask {
        Ask::Query => answer_query(&shown, marks, area),
        Ask::Find => answer_find(&shown, marks, area),
    }
}

// `(query P)` and `(find P)`.
pub fn ask_path(what: Ask, state: &[u8], table: &[u8], path: &[u8], area: &mut [u8]) -> Answer
    requires { store_ok state.now table.now ≡ true }
    ensures { Performs (work_ask what state.now table.now path.now)
        state.now table.now area.old (numbered result) state.now table.now area.new }
{
    path_refusal(state, path)?;
    let mut rights = [0u8; RECORDS_MAX];
    let mut shown = [0u16; RECORDS_MAX];
    let mut marks = [0u8; RECORDS_MAX];
    let k = select_user(
        state,
        table,
        path,
        VIEW_RIGHTS,
        &mut rights,
        &mut shown,
        &mut marks,
    );
    let need = answer_ask(what, table, &shown[0..k], &marks[0..k], area);
    area_refusal(need, area.len())?;
    Ok(need)
}
