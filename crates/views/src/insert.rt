// append, before, after (document 01, "Changes"): a tree of records at every place that is done; in place, in one pass. Refusals 10 and 11 are decided
// by functions of their own, before anything is written.
ghost use Rattle.std.specs.Prelude.{◌≡◌, ◌++◌, ◌∷◌, [], true, false, cond, not, ◌&&◌, ℕ, ◌+◌, ◌-◌, ◌*◌, ◌^◌, ◌≤◌, ◌<◌, length, get_or, take, drop, eqb, ltb};
ghost use Rattle.rights.specs.Limits.{records_max};
ghost use Rattle.rights.specs.Table.{count, records, level, table_ok};
ghost use Rattle.views.specs.Change.{chunks, raised, raise, placed, changed, deepest, too_deep, has_room, lower};
ghost use Rattle.rights.specs.Marks.{marks_of};
ghost use Rattle.views.specs.How.Pass.{is_due, front, AtDone, Shallow, stack, rest, behind, in_front, passing, passing_front, Fixed, Between};
ghost use Rattle.views.specs.Nodes.{Under};

use crate::moves::{clear_from, move_record, shift_up};
use rights::limits::{COUNT_BYTES, LEVEL_MAX, RECORD_BYTES};
use rights::marks::count_marks;
use rights::table::{capacity_of, count_of, put_count};

// Where the tree goes: as the last child of a node, directly behind the node and all below it, directly in front of it.
#[derive(Clone, Copy, PartialEq, Eq, Debug)]
pub enum Place {
    Append,
    After,
    Before,
}

// Stores record `from` of the tree at byte `to`, k levels deeper.
fn put_raised(t: &mut [u8], to: usize, tree: &[u8], from: usize, k: u8)
    requires { (to + 32 ≤ length t.old) × (from + 32 ≤ length tree.now) × (k + get_or tree.now from 0 < 256) }
    ensures { (take (to + 32) t.new ≡ take to t.old ++ raised k (take 32 (drop from tree.now)))
        × (drop (to + 32) t.new ≡ drop (to + 32) t.old) }
{
    t[to..to + RECORD_BYTES].copy_from_slice(&tree[from..from + RECORD_BYTES]);
    t[to] = k + tree[from];
}

// Stores the m records of the tree after the first w records, k levels deeper.
// Kept: m beside `tree`, as in `Insertion`.
fn put_tree(t: &mut [u8], w: usize, tree: &[u8], m: usize, k: u8)
    requires { (4 + (w + m) * 32 ≤ length t.old) × (m * 32 ≤ length tree.now) × ((j : ℕ) → j < m → k + get_or tree.now (j * 32) 0 < 256) }
    ensures { (chunks (w + m) (drop 4 t.new) ≡ chunks w (drop 4 t.old) ++ raise k (chunks m tree.now))
        × (drop (4 + (w + m) * 32) t.new ≡ drop (4 + (w + m) * 32) t.old) }
{
    for j in 0..m {
        put_raised(
            t,
            COUNT_BYTES + (w + j) * RECORD_BYTES,
            tree,
            j * RECORD_BYTES,
            k,
        );
    }
}

// What is inserted, and where: the m records of a tree at each marked one of n records, which stand `gap` records
// behind their place.
// Kept: `Fixed` is a clause and no invariant: it also says how long the table is, which is lent to each method anew.
// Kept: m beside `tree`: `insert_marked`, `too_deep` and `has_room`, which may not change, count records, not bytes.
#[derive(Clone, Copy)]
struct Insertion<'a> {
    marks: &'a [u8],
    tree: &'a [u8],
    m: usize,
    n: usize,
    gap: usize,
}

// Where a pass is: the next record to be taken, the place of the next to be written, and the d levels at which a tree
// waits, the deepest last.
// Kept: `levels` has its length d beside it: fixed memory, nothing is allocated, and no more than 12 levels wait.
#[derive(Clone, Copy)]
struct Pass {
    i: usize,
    w: usize,
    d: usize,
    levels: [u8; 12],
}

impl Pass {
    // Whether a tree waits that goes in front of a record at level l.
    fn is_due(&self, l: u8) -> bool
        requires { self.now.d ≤ length self.now.levels }
        ensures { result ≡ is_due l (stack self.now.d self.now.levels) }
    {
        0 < self.d && l <= self.levels[self.d - 1]
    }
}

impl<'a> Insertion<'a> {
    // The level of record i, 0 where there is none.
    // Kept: no Option, which is no plainer: at the end every waiting tree is due, as it is before a record at level 0.
    fn next_level(&self, t: &[u8], i: usize) -> u8
        requires { (4 + (self.now.n + self.now.gap) * 32 ≤ length t.now) × (i ≤ self.now.n) }
        ensures { result ≡ front level (rest self.now.n self.now.gap i t.now) }
    {
        if i < self.n {
            t[COUNT_BYTES + (self.gap + i) * RECORD_BYTES]
        } else {
            0
        }
    }

    // Writes the tree that waits at the last of the levels, `up` levels below it.
    fn flush_tree(&self, t: &mut [u8], up: u8, at: &mut Pass)
        requires d_nonzero { (0 < at.old.d) × (at.old.d ≤ length at.old.levels)
            × (4 + (at.old.w + self.now.m) * 32 ≤ length t.old) × (self.now.m * 32 ≤ length self.now.tree.now) }
        requires d_bound { (get_or at.old.levels (at.old.d - 1) 0 < 12) × (up ≤ 1)
            × (Shallow up self.now.m self.now.tree.now (get_or at.old.levels (at.old.d - 1) 0)) }
        ensures at_after { (at.new.i ≡ at.old.i) × (at.new.w ≡ at.old.w + self.now.m) × (at.new.d ≡ at.old.d - 1)
            × (at.new.levels ≡ at.old.levels) }
        ensures t_after { (chunks (at.old.w + self.now.m) (drop 4 t.new)
            ≡ chunks at.old.w (drop 4 t.old)
            ++ raise (up + get_or at.old.levels (at.old.d - 1) 0) (chunks self.now.m self.now.tree.now))
            × (drop (4 + (at.old.w + self.now.m) * 32) t.new ≡ drop (4 + (at.old.w + self.now.m) * 32) t.old) }
    {
        at.d -= 1;
        let k = at.levels[at.d];
        put_tree(t, at.w, self.tree, self.m, up + k);
        at.w += self.m;
    }

    // Takes the next record, which is at level l; where it is marked, the tree waits at l.
    fn take_record(&self, t: &mut [u8], l: u8, at: &mut Pass)
        requires { (at.old.w ≤ self.now.gap + at.old.i) × (4 + (self.now.gap + at.old.i) * 32 + 32 ≤ length t.old)
            × (at.old.i < length self.now.marks.now) × (at.old.d < length at.old.levels) }
        ensures i_value { (at.new.i ≡ at.old.i + 1) × (at.new.w ≡ at.old.w + 1) × (at.new.d ≤ at.old.d + 1)
            × (stack at.new.d at.new.levels ≡ cond (not (eqb (get_or self.now.marks.now at.old.i 0) 0))
            (l ∷ stack at.old.d at.old.levels) (stack at.old.d at.old.levels)) }
        ensures room { length at.new.levels ≡ length at.old.levels }
        ensures t_after { (take (4 + at.old.w * 32 + 32) t.new ≡ take (4 + at.old.w * 32) t.old ++ take 32
            (drop (4 + (self.now.gap + at.old.i) * 32) t.old))
            × (drop (4 + (self.now.gap + at.old.i) * 32 + 32) t.new
            ≡ drop (4 + (self.now.gap + at.old.i) * 32 + 32) t.old) }
    {
        move_record(
            t,
            COUNT_BYTES + (self.gap + at.i) * RECORD_BYTES,
            COUNT_BYTES + at.w * RECORD_BYTES,
        );
        let mark = self.marks[at.i];
        at.i += 1;
        at.w += 1;
        if mark != 0 {
            at.levels[at.d] = l;
            at.d += 1;
        }
    }

    // Writes a waiting tree that is due, or else takes the next record.
    fn turn(&self, t: &mut [u8], up: u8, at: &mut Pass)
        requires fixed { (Fixed self.now.n self.now.gap self.now.m t.old self.now.marks.now self.now.tree.now)
            × (up ≤ 1) }
        requires between { Between self.now.n self.now.gap up self.now.m at.old.i at.old.d self.now.tree.now
            self.now.marks.now t.old at.old.levels }
        requires i_bound { (at.old.i < self.now.n + at.old.d)
            × (length (passing self.now.n self.now.gap up self.now.m self.now.tree.now self.now.marks.now
            at.old.i at.old.w at.old.d t.old at.old.levels)
            ≡ self.now.n + self.now.gap) }
        ensures between_2 { Between self.now.n self.now.gap up self.now.m at.new.i at.new.d self.now.tree.now
            self.now.marks.now t.new at.new.levels }
        ensures d_bound { (self.now.n - at.new.i + (self.now.n - at.new.i) + at.new.d
            < self.now.n - at.old.i + (self.now.n - at.old.i) + at.old.d)
            × (passing self.now.n self.now.gap up self.now.m self.now.tree.now self.now.marks.now
            at.new.i at.new.w at.new.d t.new at.new.levels
            ≡ passing self.now.n self.now.gap up self.now.m self.now.tree.now self.now.marks.now
            at.old.i at.old.w at.old.d t.old at.old.levels) }
    {
        let l = self.next_level(t, at.i);
        if at.is_due(l) {
            self.flush_tree(t, up, at);
        } else {
            self.take_record(t, l, at);
        }
    }

    // Puts the tree behind every marked record and all below it, `up` levels below it.
    fn spread(&self, t: &mut [u8], up: u8)
        requires fixed { (Fixed self.now.n self.now.gap self.now.m t.old self.now.marks.now self.now.tree.now)
            × (up ≤ 1) }
        requires under { (Under level 12 (rest self.now.n self.now.gap 0 t.old))
            × (AtDone (λ r. Shallow up self.now.m self.now.tree.now (level r)) (marks_of self.now.marks.now)
            (rest self.now.n self.now.gap 0 t.old))
            × (length (behind up self.now.m self.now.tree.now self.now.marks.now (rest self.now.n self.now.gap 0 t.old))
            ≡ self.now.n + self.now.gap) }
        ensures { chunks (self.now.n + self.now.gap) (drop 4 t.new)
            ≡ behind up self.now.m self.now.tree.now self.now.marks.now (rest self.now.n self.now.gap 0 t.old) }
    {
        let mut at = Pass {
            i: 0,
            w: 0,
            d: 0,
            levels: [0; 12],
        };
        while at.i < self.n + at.d {
            self.turn(t, up, &mut at);
        }
    }

    // Writes the tree in front of record i, which is at level l, where it is marked; answers how many records are then
    // written.
    fn tree_in_front(&self, t: &mut [u8], l: u8, i: usize, w: usize) -> usize
        requires w_bound { (w ≤ self.now.gap + i) × (4 + (self.now.gap + i) * 32 ≤ length t.old)
            × (self.now.m * 32 ≤ length self.now.tree.now) × (i < length self.now.marks.now) }
        requires m_bound { ((get_or self.now.marks.now i 0 ≡ 0 → ⊥) → w + self.now.m ≤ self.now.gap + i)
            × ((get_or self.now.marks.now i 0 ≡ 0 → ⊥) → Shallow 0 self.now.m self.now.tree.now l) }
        ensures { (result ≤ self.now.gap + i) × (chunks result (drop 4 t.new) ≡ chunks w (drop 4 t.old) ++ cond
            (not (eqb (get_or self.now.marks.now i 0) 0)) (raise l (chunks self.now.m self.now.tree.now)) [])
            × (drop (4 + (self.now.gap + i) * 32) t.new ≡ drop (4 + (self.now.gap + i) * 32) t.old) }
    {
        if self.marks[i] != 0 {
            put_tree(t, w, self.tree, self.m, l);
            return w + self.m;
        }
        w
    }

    // Takes record i, with the tree in front of it where it is marked.
    fn step_front(&self, t: &mut [u8], i: usize, w: usize) -> usize
        requires fixed { Fixed self.now.n self.now.gap self.now.m t.old self.now.marks.now self.now.tree.now }
        requires i_lt_n { (i < self.now.n)
            × (AtDone (λ r. Shallow 0 self.now.m self.now.tree.now (level r)) (marks_of (drop i self.now.marks.now))
            (rest self.now.n self.now.gap i t.old))
            × (length (passing_front self.now.n self.now.gap self.now.m self.now.tree.now self.now.marks.now i w t.old)
            ≡ self.now.n + self.now.gap) }
        ensures { (AtDone (λ r. Shallow 0 self.now.m self.now.tree.now (level r))
            (marks_of (drop (i + 1) self.now.marks.now)) (rest self.now.n self.now.gap (i + 1) t.new))
            × (passing_front self.now.n self.now.gap self.now.m self.now.tree.now self.now.marks.now
            (i + 1) result t.new
            ≡ passing_front self.now.n self.now.gap self.now.m self.now.tree.now self.now.marks.now i w t.old) }
    {
        let at = COUNT_BYTES + (self.gap + i) * RECORD_BYTES;
        let l = t[at];
        let p = self.tree_in_front(t, l, i, w);
        move_record(t, at, COUNT_BYTES + p * RECORD_BYTES);
        p + 1
    }

    // Puts the tree in front of every marked record.
    fn spread_front(&self, t: &mut [u8])
        requires fixed { Fixed self.now.n self.now.gap self.now.m t.old self.now.marks.now self.now.tree.now }
        requires at_done { (AtDone (λ r. Shallow 0 self.now.m self.now.tree.now (level r)) (marks_of self.now.marks.now)
            (rest self.now.n self.now.gap 0 t.old))
            × (length (in_front self.now.m self.now.tree.now self.now.marks.now (rest self.now.n self.now.gap 0 t.old))
            ≡ self.now.n + self.now.gap) }
        ensures { chunks (self.now.n + self.now.gap) (drop 4 t.new)
            ≡ in_front self.now.m self.now.tree.now self.now.marks.now (rest self.now.n self.now.gap 0 t.old) }
    {
        let mut w = 0;
        for i in 0..self.n {
            w = self.step_front(t, i, w);
        }
    }

    // One of the two passes, by the place.
    fn spread_by(&self, t: &mut [u8], place: Place)
        requires fixed { Fixed self.now.n self.now.gap self.now.m t.old self.now.marks.now self.now.tree.now }
        requires under { (Under level 12 (rest self.now.n self.now.gap 0 t.old))
            × (AtDone (λ r. Shallow (lower place) self.now.m self.now.tree.now (level r)) (marks_of self.now.marks.now)
            (rest self.now.n self.now.gap 0 t.old))
            × (length (placed place self.now.m self.now.tree.now (marks_of self.now.marks.now)
            (rest self.now.n self.now.gap 0 t.old)) ≡ self.now.n + self.now.gap) }
        ensures { chunks (self.now.n + self.now.gap) (drop 4 t.new)
            ≡ placed place self.now.m self.now.tree.now (marks_of self.now.marks.now)
            (rest self.now.n self.now.gap 0 t.old) }
    {
        match place {
            Place::Append => self.spread(t, 1),
            Place::After => self.spread(t, 0),
            Place::Before => self.spread_front(t),
        }
    }

    // The insertion into a table with n records and room for `gap` more; the count and the bytes after the records too.
    fn fill(&self, t: &mut [u8], place: Place)
        requires fixed { Fixed self.now.n self.now.gap self.now.m t.old self.now.marks.now self.now.tree.now }
        requires gap_bound { (self.now.n + self.now.gap < 2 ^ 32) × (Under level 12 (chunks self.now.n (drop 4 t.old)))
            × (AtDone (λ r. Shallow (lower place) self.now.m self.now.tree.now (level r)) (marks_of self.now.marks.now)
            (chunks self.now.n (drop 4 t.old)))
            × (length (placed place self.now.m self.now.tree.now (marks_of self.now.marks.now)
            (chunks self.now.n (drop 4 t.old))) ≡ self.now.n + self.now.gap) }
        ensures { t.new ≡ changed t.old (placed place self.now.m self.now.tree.now (marks_of self.now.marks.now)
            (chunks self.now.n (drop 4 t.old))) }
    {
        shift_up(
            t,
            COUNT_BYTES,
            COUNT_BYTES + self.n * RECORD_BYTES,
            self.gap * RECORD_BYTES,
        );
        self.spread_by(t, place);
        clear_from(t, COUNT_BYTES + (self.n + self.gap) * RECORD_BYTES);
        put_count(t, self.n + self.gap);
    }
}

// Inserts the tree of m records at every marked record, where no level comes above 11 (refusal 10) and there is room (refusal 11).
pub fn insert_marked(t: &mut [u8], marks: &[u8], tree: &[u8], m: usize, place: Place)
    requires t_value { (table_ok t.old ≡ true) × (count t.old ≤ length marks.now) × (m * 32 ≤ length tree.now) }
    requires t_value_2 { (too_deep (lower place + deepest (chunks m tree.now)) (marks_of marks.now) (records t.old) ≡ false)
        × (has_room t.old (marks_of marks.now) m ≡ true) }
    ensures { t.new ≡ changed t.old (placed place m tree.now (marks_of marks.now)
        (records t.old)) }
{
    let n = count_of(t);
    let k = count_marks(&marks[..n]);
    let insertion = Insertion {
        marks,
        tree,
        m,
        n,
        gap: k * m,
    };
    insertion.fill(t, place);
}

// Whether the insertions find room (refusal 11 otherwise).
pub fn has_room(t: &[u8], marks: &[u8], m: usize) -> bool
    requires { (table_ok t.now ≡ true) × (count t.now ≤ length marks.now) × (m ≤ records_max) }
    ensures { result ≡ has_room t.now (marks_of marks.now) m }
{
    let n = count_of(t);
    let c = capacity_of(t.len());
    let k = count_marks(&marks[..n]);
    k * m <= c - n
}

// The level of the deepest of the m records.
// Kept: m beside `tree`, as in `Insertion`.
fn deepest_level(tree: &[u8], m: usize) -> usize
    requires { m * 32 ≤ length tree.now }
    ensures { (result ≡ deepest (chunks m tree.now)) × (result < 256) }
{
    let mut deep = 0;
    for j in (0..m).rev() {
        deep = deep.max(usize::from(tree[j * RECORD_BYTES]));
    }
    deep
}

// How many levels below its place the tree's root lands.
fn levels_down(place: Place) -> usize
    ensures { (result ≡ lower place) × (result ≤ 1) }
{
    match place {
        Place::Append => 1,
        Place::After | Place::Before => 0,
    }
}

// Whether a place is done, by its mark, and something at it, `deep` levels deeper, would have a level above 11.
fn is_too_deep(mark: u8, level: u8, deep: usize) -> bool
    requires { deep ≤ 256 }
    ensures { result ≡ (not (eqb mark 0) && ltb 11 (level + deep)) }
{
    mark != 0 && LEVEL_MAX < usize::from(level) + deep
}

// The same of some of the first n records.
fn some_too_deep(t: &[u8], marks: &[u8], n: usize, deep: usize) -> bool
    requires { (4 + n * 32 ≤ length t.now) × (n ≤ length marks.now) × (deep ≤ 256) }
    ensures { result ≡ too_deep deep (marks_of marks.now) (chunks n (drop 4 t.now)) }
{
    (0..n).any(|i| is_too_deep(marks[i], t[COUNT_BYTES + i * RECORD_BYTES], deep))
}

// Whether a level above 11 would come at a marked place (refusal 10).
pub fn too_deep(t: &[u8], marks: &[u8], tree: &[u8], m: usize, place: Place) -> bool
    requires { (table_ok t.now ≡ true) × (count t.now ≤ length marks.now) × (m * 32 ≤ length tree.now) }
    ensures { result ≡ too_deep (lower place + deepest (chunks m tree.now)) (marks_of marks.now) (records t.now) }
{
    let n = count_of(t);
    let deep = levels_down(place) + deepest_level(tree, m);
    some_too_deep(t, marks, n, deep)
}
