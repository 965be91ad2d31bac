// Which records a change does (document 01, "Changes"; document 02, card 7), decided before anything changes.
ghost use Rattle.std.specs.Prelude.{◌≡◌, true, false, cond, not, ◌&&◌, ℕ, ◌+◌, ◌%◌, ◌≤◌, ◌<◌, eqb, ltb, length, get_or};
ghost use Rattle.rights.specs.Policy.{read, update};
ghost use Rattle.rights.specs.PolicyCheck.{policy_ok};
ghost use Rattle.rights.specs.Rights.{holds};
ghost use Rattle.rights.specs.Table.{count, table_ok};
ghost use Rattle.rights.specs.Limits.{records_max};
ghost use Rattle.views.specs.Done.{does};
ghost use Rattle.views.specs.How.Numbers.{DoneWhere, DoneBy, asks_word};

use rights::limits::{COUNT_BYTES, DELETE, INSERT, READ, RECORD_BYTES, RECORDS_MAX, UPDATE};
use rights::policy::unmark_words;
use rights::rights::holds_right;
use rights::table::count_of;

// The seven changes.
#[derive(Clone, Copy, PartialEq, Eq, Debug)]
pub enum Change {
    Rename,
    Update,
    Append,
    Before,
    After,
    Remove,
    Window,
}

// Whether shown node j is record i.
fn stands_at(shown: &[u16], j: usize, i: usize) -> bool
    ensures { result ≡ (ltb j (length shown.now) && eqb (get_or shown.now j 0 % records_max) i) }
{
    j < shown.len() && usize::from(shown[j]) % RECORDS_MAX == i
}

// Whether shown node j stands here and is marked.
fn is_marked(marks: &[u8], j: usize, stands: bool) -> bool
    ensures { result ≡ (stands && not (eqb (get_or marks.now j 0) 0)) }
{
    stands && j < marks.len() && marks[j] != 0
}

// Writes v at every deeper level than this one: what the children of a node at this level find. 16 slots are more than
// there are levels.
fn pass_down(slots: &mut [bool; 16], level: usize, v: bool)
    requires { (level < 16) × (length slots.old ≡ 16) }
    ensures { (length slots.new ≡ 16) × ((l : ℕ) → l < 16
        → get_or slots.new l false ≡ cond (ltb level l) v (get_or slots.old l false)) }
{
    slots[level + 1..].fill(v);
}

// What a change asks of a node, but for its label: its level, the user's rights on it, whether it is shown, whether it
// is selected; of its parent, whether it is selected and whether the user has insert on it.
// Kept: its bools are facts of the node, and none says whether another field counts.
#[derive(Clone, Copy)]
struct Asked {
    level: u8,
    rights: u8,
    shown: bool,
    selected: bool,
    parent_selected: bool,
    parent_insert: bool,
}

impl Asked {
    // Whether the node may be renamed.
    fn is_renamable(self) -> bool
        ensures { result ≡ (holds read self.rights && holds update self.rights) }
    {
        holds_right(self.rights, READ) && holds_right(self.rights, UPDATE)
    }

    // Whether the change does the node.
    fn is_done(self, change: Change) -> bool
        ensures { result ≡ does change (record {
          level = self.level;
          rights = self.rights;
          shown = self.shown;
          selected = self.selected;
          word = false;
          parent_selected = self.parent_selected;
          parent_insert = self.parent_insert;
        }) }
    {
        let inner = self.level != 0;
        match change {
            Change::Rename => self.selected && self.is_renamable(),
            Change::Update => self.shown && self.parent_selected && self.is_renamable(),
            Change::Append => self.selected && holds_right(self.rights, INSERT),
            Change::Before | Change::After => self.selected && self.parent_insert && inner,
            Change::Remove => self.selected && holds_right(self.rights, DELETE) && inner,
            Change::Window => self.selected && self.is_renamable() && inner,
        }
    }
}

// Writes for each record whether the change does it, whatever its label. The next shown node is j. A slot a level says of the
// node above, which is the parent of the next node at that level, whether it is selected, and whether the user has insert on it.
fn mark_by_rights(
    change: Change,
    table: &[u8],
    rights: &[u8],
    shown: &[u16],
    marks: &[u8],
    done: &mut [u8],
)
    requires { (table_ok table.now ≡ true) × (count table.now ≤ length rights.now) × (count table.now ≤ length done.old) }
    ensures { DoneWhere change (λ _. false) table.now rights.now shown.now
        marks.now done.old done.new }
{
    let mut chosen = [false; 16];
    let mut granting = [false; 16];
    let mut j = 0;
    for i in 0..count_of(table) {
        let level = table[COUNT_BYTES + i * RECORD_BYTES];
        let l = usize::from(level);
        let set = rights[i];
        let on = stands_at(shown, j, i);
        let sel = is_marked(marks, j, on);
        let node = Asked {
            level,
            rights: set,
            shown: on,
            selected: sel,
            parent_selected: chosen[l],
            parent_insert: granting[l],
        };
        done[i] = u8::from(node.is_done(change));
        pass_down(&mut chosen, l, sel);
        pass_down(&mut granting, l, holds_right(set, INSERT));
        j += usize::from(on);
    }
}

// Whether the change asks that a label be no policy word.
fn asks_word(change: Change) -> bool
    ensures { result ≡ asks_word change }
{
    matches!(change, Change::Rename | Change::Update)
}

// Writes for each record whether the change does it. `shown` has the numbers of the shown nodes, in document order, and `marks` says which of
// them are selected.
pub fn mark_done(
    change: Change,
    policy: &[u8],
    table: &[u8],
    rights: &[u8],
    shown: &[u16],
    marks: &[u8],
    done: &mut [u8],
)
    requires { (policy_ok policy.now ≡ true) × (table_ok table.now ≡ true) × (count table.now ≤ length rights.now)
        × (count table.now ≤ length done.old) }
    ensures { DoneBy change policy.now table.now rights.now shown.now
        marks.now done.old done.new }
{
    mark_by_rights(change, table, rights, shown, marks, done);
    if asks_word(change) {
        unmark_words(policy, table, done);
    }
}
