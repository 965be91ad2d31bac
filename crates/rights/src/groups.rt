// The rules of one right for all nodes at once: the automata of as many rules as fit stand side by side in one number, one bit a state, so that a
// node moves all of them by a few operations. Which steps its label passes stands in the row of the label's number; the rows of the names for which
// `$` stands get the bits of a group's `$` all at once.
ghost use Rattle.std.specs.Prelude.{◌≡◌, List, [], ◌∷◌, ◌++◌, Bool, true, cond, not, ℕ, suc, ◌+◌, ◌-◌, ◌*◌, ◌/◌, ◌%◌, ◌^◌, ◌≤◌, ◌<◌, eqb, length, get_or, replicate};
ghost use Rattle.std.specs.Int.Bits.{bit_or};
ghost use Rattle.rights.specs.Path.{is_descendant};
ghost use Rattle.rights.specs.Labels.{same_label};
ghost use Rattle.rights.specs.Table.{rec_at, label};
ghost use Rattle.rights.specs.PolicyBytes.{rule_count, step_count, steps_at, step_of, accepts, axis_of};
ghost use Rattle.rights.specs.How.Places.{Text};
ghost use Rattle.rights.specs.PolicyCheck.{bit_ok};
ghost use Rattle.rights.specs.Rights.{Step, step_for, ruled_set};
ghost use Rattle.rights.specs.How.Automaton.{value, moved, steps_for, chain_of, Each};
ghost use Rattle.rights.specs.How.Groups.{counts, laid, ruled, by_right, by_five, settled};
ghost use Rattle.rights.specs.How.Groups.{Packed, Grouped, Ready, Numbered, Noted, Known, General};
ghost use Rattle.rights.specs.How.WordList.{number_in};

use crate::limits::{
    COUNT_BYTES, LABEL_AT, RECORD_BYTES, RIGHTS, RULE_BYTES, RULES_AT, STEPS_AT, SUBJECTS_AT,
    WORDS_MAX,
};
use crate::rights::holds_right;
use crate::vocabulary::WordList;

// m, with bit j where `on`.
fn mark_if(on: bool, m: u64, j: usize) -> u64
    requires { j ≤ 63 }
    ensures { result ≡ cond on (bit_or m (2 ^ j)) m }
{
    if on { m | 1 << j } else { m }
}

// Whether the step at byte `step` goes to all descendants.
fn is_deep(policy: &[u8], step: usize) -> bool
    requires { step < length policy.now }
    ensures { result ≡ is_descendant (axis_of (get_or policy.now step 0)) }
{
    policy[step] != 0
}

// The states after a node, where m are those of its parent and `row` the steps that its label passes beside those that all labels pass.
fn next_states(deep: u64, every: u64, row: u64, m: u64) -> u64
    ensures { (number : List ℕ → ℕ) (mine : List ℕ → Bool) (ss : List Step) (st : List Bool) (rows x : List ℕ)
        → Packed number mine ss deep every 0 rows → length ss ≤ 63 → row ≡ get_or rows (number x) 0 → m ≡ value st → result ≡ value (moved ss st x) }
{
    (m & deep) | ((m & (every | row)) << 1)
}

// The set after a rule that applies: its right's bit is set or cleared by mask.
fn with_right(set: u8, right: u8, accept: bool) -> u8
    ensures { (result ≡ ruled_set set right accept) × (set < 256) }
{
    if accept {
        return set | right;
    }
    set & (255 - right)
}

// The set after a group, by the last rule that finds the node: later rules have higher bits.
fn settle(set: u8, right: u8, yes: u64, noes: u64) -> u8
    ensures { (result ≡ settled right yes noes set) × (set < 256) }
{
    if noes < yes {
        return with_right(set, right, true);
    }
    if yes < noes {
        return with_right(set, right, false);
    }
    set
}

// Sets or clears a right in these sets.
fn rule_all(right: u8, accept: bool, out: &mut [u8])
    ensures { Each (length out.old) out.old out.new (λ (i x : ℕ). ruled_set x right accept)
        × ((i : ℕ) → i < length out.old → get_or out.old i 0 < 256) }
{
    for x in out {
        *x = with_right(*x, right, accept);
    }
}

// Sets these bits in the row of the label of the record at byte `at` of the policy.
fn note_label(words: &WordList, at: usize, bits: u64, rows: &mut [u64])
    requires { Text words.now.policy.now at × (0 < number_in words.now (label (rec_at words.now.policy.now at)))
        × (length rows.old ≡ 2113) }
    ensures { Noted (number_in words.now) rows.old rows.new bits
        (λ (x : List ℕ). same_label x (label (rec_at words.now.policy.now at))) }
{
    let h = words.number(words.policy, at);
    rows[h] |= bits;
}

// Steps in numbers: those that go to all descendants, those that all labels pass, and those that are `$`.
#[derive(Clone, Copy)]
struct Marks {
    deep: u64,
    every: u64,
    own: u64,
}

// Rules in numbers: their steps' marks, the first states, the ends of the rules that accept and of those that deny, and the bits in use.
#[derive(Clone, Copy)]
struct Group {
    marks: Marks,
    start: u64,
    yes: u64,
    noes: u64,
    used: usize,
}

// What a subject's rights are worked out from: the words of the policy, the subjects for which `$` stands, what the
// subject is, and a table's nodes with the numbers of their labels.
#[derive(Clone, Copy)]
pub(crate) struct Trial<'a> {
    pub(crate) words: &'a WordList<'a>,
    pub(crate) own: &'a [u8],
    pub(crate) roles: &'a [u8; 64],
    pub(crate) table: &'a [u8],
    pub(crate) numbers: &'a [u16],
    pub(crate) ghost ready: { Ready words.now.policy.now own.now words.now.places words.now.count },
    pub(crate) ghost numbered: { Numbered words.now.policy.now words.now.places words.now.count
        table.now (length numbers.now) numbers.now },
}

impl<'a> Trial<'a> {
    ghost use Rattle.rights.specs.How.Trial.{policy_in, mine_in, rules_in, PackedIn, GroupedIn};

    // Sets these bits in the rows of the names for which `$` stands, and looks no name up where there are no bits.
    fn note_names(&self, bits: u64, rows: &mut [u64])
        requires { length rows.old ≡ 2113 }
        ensures { Noted (number_in self.now.words.now) rows.old rows.new bits (mine_in self.now) }
    {
        if bits == 0 {
            return;
        }
        for u in self.own {
            let at = SUBJECTS_AT + usize::from(*u) * RECORD_BYTES;
            note_label(self.words, at, bits, rows);
        }
    }

    // The marks with the step at byte `step` as that of bit j.
    fn with_step(&self, step: usize, j: usize, m: Marks, rows: &mut [u64]) -> Marks
        requires { Text (policy_in self.now) step
            × Known (policy_in self.now) self.now.words.now.places self.now.words.now.count step × (j ≤ 63)
            × (length rows.old ≡ 2113) }
        ensures { ((ss : List Step) → length ss ≡ j → PackedIn self.now ss m rows.old
            → PackedIn self.now (ss ++ (step_for (mine_in self.now) (step_of (rec_at (policy_in self.now) step)) ∷ []))
            result rows.new)
            × (length rows.new ≡ 2113) }
    {
        let policy = self.words.policy;
        let deep = mark_if(is_deep(policy, step), m.deep, j);
        let first = policy[step + LABEL_AT];
        let bit = 1 << j;
        if first == b'*' {
            let every = m.every | bit;
            return Marks { deep, every, ..m };
        }
        if first == b'$' {
            let own = m.own | bit;
            return Marks { deep, own, ..m };
        }
        note_label(self.words, step, bit, rows);
        Marks { deep, ..m }
    }

    // Whether rule k counts: it is for this right, and for one of the subject's roles.
    fn counts(&self, right: u8, k: usize) -> bool
        requires { k < rule_count (policy_in self.now) }
        ensures { result ≡ counts (policy_in self.now) self.now.roles.now right k }
    {
        let policy = self.words.policy;
        let a = RULES_AT + k * RULE_BYTES;
        policy[a + 1] == right && self.roles[usize::from(policy[a + 2])] != 0
    }

    // The bits that rule k takes: one a step and one for the end, and none where it does not count.
    fn size_of(&self, right: u8, k: usize) -> usize
        requires { k < rule_count (policy_in self.now) }
        ensures { (result ≡ cond (counts (policy_in self.now) self.now.roles.now right k)
            (suc (step_count (policy_in self.now) k)) 0)
            × (result ≤ 17) }
    {
        if self.counts(right, k) {
            return usize::from(self.words.policy[RULES_AT + k * RULE_BYTES + 3]) + 1;
        }
        0
    }

    // The end of a group that starts at rule `from`: as many rules as fit into 63 bits.
    fn group_end(&self, right: u8, from: usize) -> usize
        requires { from < rule_count (policy_in self.now) }
        ensures { (from < result) × (result ≤ rule_count (policy_in self.now))
            × (length (laid (rules_in self.now right) from (result - from)) ≤ 63) }
    {
        let count = usize::from(self.words.policy[2]);
        let mut used = 0;
        for k in from..count {
            used += self.size_of(right, k);
            if 63 < used {
                return k;
            }
        }
        count
    }

    // The group with rule k.
    fn with_rule(&self, k: usize, g: Group, rows: &mut [u64]) -> Group
        requires { (k < rule_count (policy_in self.now)) × (g.used + step_count (policy_in self.now) k ≤ 62)
            × (length rows.old ≡ 2113) }
        ensures { ((ss : List Step) → length ss ≡ g.used → PackedIn self.now ss g.marks rows.old
            → PackedIn self.now (ss ++ steps_for (mine_in self.now) (policy_in self.now) (steps_at k)
            (step_count (policy_in self.now) k) 0) result.marks rows.new)
            × (result.start ≡ bit_or g.start (2 ^ g.used))
            × (result.yes ≡ cond (accepts (policy_in self.now) k)
            (bit_or g.yes (2 ^ (g.used + step_count (policy_in self.now) k))) g.yes)
            × (result.noes ≡ cond (not (accepts (policy_in self.now) k))
            (bit_or g.noes (2 ^ (g.used + step_count (policy_in self.now) k))) g.noes)
            × (result.used ≡ g.used + step_count (policy_in self.now) k + 1) × (length rows.new ≡ 2113) }
    {
        let policy = self.words.policy;
        let a = RULES_AT + k * RULE_BYTES;
        let b = a + STEPS_AT;
        let count = usize::from(policy[a + 3]);
        let mut marks = g.marks;
        for j in 0..count {
            marks = self.with_step(b + j * RECORD_BYTES, g.used + j, marks, rows);
        }
        let last = g.used + count;
        Group {
            marks,
            start: g.start | 1 << g.used,
            yes: mark_if(policy[a] != 0, g.yes, last),
            noes: mark_if(policy[a] == 0, g.noes, last),
            used: last + 1,
        }
    }

    // The group with rule k, if it counts.
    fn with_ruling(&self, right: u8, k: usize, g: Group, rows: &mut [u64]) -> Group
        requires { (k < rule_count (policy_in self.now)) × (bit_ok right ≡ true)
            × (g.used + cond (counts (policy_in self.now) self.now.roles.now right k)
            (suc (step_count (policy_in self.now) k)) 0 ≤ 63)
            × (length rows.old ≡ 2113) }
        ensures { ((i size : ℕ) → i + size ≡ k → GroupedIn self.now right i size g rows.old
            → GroupedIn self.now right i (suc size) result rows.new) × (length rows.new ≡ 2113) }
    {
        if self.counts(right, k) {
            return self.with_rule(k, g, rows);
        }
        g
    }

    // The rules from `from` to `to` in numbers, with rows that are zero before; those of the own names get the bits of `$` at the end.
    fn make_group(&self, right: u8, from: usize, to: usize, rows: &mut [u64]) -> Group
        requires { (from ≤ to) × (to ≤ rule_count (policy_in self.now)) × (bit_ok right ≡ true)
            × (length (laid (rules_in self.now right) from (to - from)) ≤ 63) × (rows.old ≡ replicate 2113 0) }
        ensures { Grouped (number_in self.now.words.now) (mine_in self.now) (rules_in self.now right) right from
            (to - from) result.marks.deep result.marks.every 0 result.start result.yes result.noes result.used rows.new }
    {
        let marks = Marks {
            deep: 0,
            every: 0,
            own: 0,
        };
        let mut g = Group {
            marks,
            start: 0,
            yes: 0,
            noes: 0,
            used: 0,
        };
        for k in from..to {
            g = self.with_ruling(right, k, g, rows);
        }
        self.note_names(g.marks.own, rows);
        g
    }

    // Tries the rules from `from` to `to` on the nodes.
    fn try_group(&self, right: u8, from: usize, to: usize, out: &mut [u8])
        requires { (from ≤ to) × (to ≤ rule_count (policy_in self.now)) × (bit_ok right ≡ true)
            × (length (laid (rules_in self.now right) from (to - from)) ≤ 63)
            × (length self.now.numbers.now ≤ length out.old) }
        ensures { Each (length self.now.numbers.now) out.old out.new
            (λ (i x : ℕ). ruled (rules_in self.now right) right (chain_of self.now.table.now i) from (to - from) x) }
    {
        let mut rows = [0; WORDS_MAX + 1];
        let g = self.make_group(right, from, to, &mut rows);
        if g.used == 0 {
            return;
        }
        let table = self.table;
        let numbers = self.numbers;
        let mut st = [0; 13];
        st[0] = g.start;
        for i in 0..numbers.len() {
            let l = usize::from(table[COUNT_BYTES + i * RECORD_BYTES]);
            let row = rows[usize::from(numbers[i])];
            let m = next_states(g.marks.deep, g.marks.every, row, st[l]);
            st[l + 1] = m;
            out[i] = settle(out[i], right, m & g.yes, m & g.noes);
        }
    }

    // Whether rule k counts and is for all nodes: its path is `//*`.
    fn is_general(&self, right: u8, k: usize) -> bool
        requires { k < rule_count (policy_in self.now) }
        ensures { result ≡ true → General (rules_in self.now right k) }
    {
        let policy = self.words.policy;
        let a = RULES_AT + k * RULE_BYTES;
        let b = a + STEPS_AT;
        policy[a + 3] == 1
            && is_deep(policy, b)
            && policy[b + LABEL_AT] == b'*'
            && self.counts(right, k)
    }

    // One past the last rule that is for all nodes, or 0: what the rules before it say of the right is overridden.
    fn general_end(&self, right: u8) -> usize
        ensures { (result ≤ rule_count (policy_in self.now))
            × (0 < result → General (rules_in self.now right (result - 1))) }
    {
        for k in (0..usize::from(self.words.policy[2])).rev() {
            if self.is_general(right, k) {
                return k + 1;
            }
        }
        0
    }

    // Tries the rules before rule k, the last of which is for all nodes, on the nodes.
    fn try_general(&self, right: u8, k: usize, out: &mut [u8])
        requires { (bit_ok right ≡ true) × (k ≤ rule_count (policy_in self.now))
            × (0 < k → General (rules_in self.now right (k - 1))) × (length self.now.numbers.now ≤ length out.old) }
        ensures { Each (length self.now.numbers.now) out.old out.new
            (λ (i x : ℕ). ruled (rules_in self.now right) right (chain_of self.now.table.now i) 0 k x) }
    {
        if k == 0 {
            return;
        }
        let accept = self.words.policy[RULES_AT + (k - 1) * RULE_BYTES] != 0;
        rule_all(right, accept, &mut out[..self.numbers.len()]);
    }

    // Tries all rules of one right on the nodes.
    fn try_right(&self, right: u8, out: &mut [u8])
        requires { (bit_ok right ≡ true) × (length self.now.numbers.now ≤ length out.old) }
        ensures { Each (length self.now.numbers.now) out.old out.new
            (λ (i x : ℕ). by_right (policy_in self.now) self.now.own.now self.now.roles.now
            (chain_of self.now.table.now i) right x) }
    {
        let rules = usize::from(self.words.policy[2]);
        let mut k = self.general_end(right);
        self.try_general(right, k, out);
        while k < rules {
            let to = self.group_end(right, k);
            self.try_group(right, k, to, out);
            k = to;
        }
    }

    // Tries all rules of one right, if it is asked.
    fn try_asked(&self, asked: u8, right: u8, out: &mut [u8])
        requires { (bit_ok right ≡ true) × (length self.now.numbers.now ≤ length out.old) }
        ensures { Each (length self.now.numbers.now) out.old out.new
            (λ (i x : ℕ). cond (eqb (asked / right % 2) 1)
            (by_right (policy_in self.now) self.now.own.now self.now.roles.now (chain_of self.now.table.now i) right x) x) }
    {
        if holds_right(asked, right) {
            self.try_right(right, out);
        }
    }

    // Tries all rules on the nodes, right by right of those that are asked.
    pub(crate) fn try_rights(&self, asked: u8, out: &mut [u8])
        requires { length self.now.numbers.now ≤ length out.old }
        ensures { Each (length self.now.numbers.now) out.old out.new
            (λ (i x : ℕ). by_five (policy_in self.now) self.now.own.now self.now.roles.now
            (chain_of self.now.table.now i) asked x) }
    {
        for k in 0..RIGHTS {
            self.try_asked(asked, 1 << k, out);
        }
    }
}
