// Words of a policy, the labels that its rules name and names of subjects, sorted and each once. A label's number is its place among them, found by halving: a node's
// label is compared with at most 12 words, once for all rules.
ghost use Rattle.std.specs.Prelude.{◌≡◌, true, false, List, ℕ, ◌+◌, ◌*◌, ◌≤◌, ◌<◌, length, get_or};
ghost use Rattle.std.specs.Ordering.{ordering_index};
ghost use Rattle.rights.specs.Table.{rec_at, record_at, records_from, records_ok, label};
ghost use Rattle.rights.specs.Labels.{same_label};
ghost use Rattle.rights.specs.Policy.{some, uses};
ghost use Rattle.rights.specs.PolicyBytes.{rule_count, step_of, stored_path};
ghost use Rattle.rights.specs.How.Places.{Text};
ghost use Rattle.rights.specs.How.Roles.{Subjects, name_among};
ghost use Rattle.rights.specs.How.Automaton.{Each, Sound};
ghost use Rattle.rights.specs.How.Vocabulary.{label_order, listed_word, named, Words, Stands, Inserted, Sorted};

use crate::labels::{compare_labels, label_in};
use crate::limits::{
    COUNT_BYTES, LABEL_AT, RECORD_BYTES, RULE_BYTES, RULES_AT, STEPS_AT, SUBJECTS_AT, WORDS_MAX,
};
use std::cmp::Ordering;

// How word i and the label of the record at byte `at` of s stand to each other.
fn compare_word(policy: &[u8], words: &[u32], i: usize, s: &[u8], at: usize) -> Ordering
    requires { (i < length words.now) × Text policy.now (get_or words.now i 0) × Text s.now at }
    ensures { ordering_index result ≡ label_order (listed_word policy.now words.now i) (label (rec_at s.now at)) }
{
    compare_labels(label_in(policy, words[i] as usize), label_in(s, at))
}

// Puts a place of the policy at place i of the first n words; those behind it move up.
fn insert_word(words: &mut [u32], n: usize, i: usize, at: usize)
    requires { (i ≤ n) × (n < length words.old) × (at < 4294967296) }
    ensures { Inserted words.old words.new n i at }
{
    words.copy_within(i..n, i + 1);
    words[i] = at as u32;
}

// The places of a policy's words in it, sorted by the words, each word once.
// Kept: a buffer with a count, since nothing here allocates.
#[derive(Drop)]
pub(crate) struct WordList<'a> {
    pub(crate) policy: &'a [u8],
    places: [u32; WORDS_MAX],
    count: usize,
    ghost sorted: { Words policy.now places count },
}

impl<'a> WordList<'a> {
    ghost use Rattle.rights.specs.How.WordList.{word_in, number_in, Adds};

    // A list with room for a policy's words, and none in it.
    pub(crate) fn new(policy: &'a [u8]) -> Self
        ensures { (result.policy.now ≡ policy.now) × (result.count ≡ 0) }
    {
        WordList {
            policy,
            places: [0; WORDS_MAX],
            count: 0,
        }
    }

    // Where the label of the record at byte `at` of s is among the words, or else where it belongs.
    // Kept: std's `binary_search_by` asks for a closure that may be called at any number, and `compare_word` reads the
    // policy at a word's place alone.
    fn search(&self, s: &[u8], at: usize) -> Result<usize, usize>
        requires { Text s.now at }
        ensures { Stands (word_in self.now) self.now.count (label (rec_at s.now at)) result }
    {
        let mut low = 0;
        let mut high = self.count;
        while low < high {
            let middle = low + (high - low) / 2;
            match compare_word(self.policy, &self.places, middle, s, at) {
                Ordering::Less => low = middle + 1,
                Ordering::Equal => return Ok(middle),
                Ordering::Greater => high = middle,
            }
        }
        Err(low)
    }

    // The number of the label of the record at byte `at` of s: its word's place, from 1 on, or 0 for one that is no word.
    pub(crate) fn number(&self, s: &[u8], at: usize) -> usize
        requires { Text s.now at }
        ensures { (result ≡ number_in self.now (label (rec_at s.now at))) × (result ≤ self.now.count) }
    {
        match self.search(s, at) {
            Ok(i) => i + 1,
            Err(_) => 0,
        }
    }

    // Adds the text of the record at byte `at` of the policy, where it is new.
    pub(crate) fn add(&mut self, at: usize)
        requires { (self.old.count < 2112) × Text self.old.policy.now at × (at < 4294967296) }
        ensures { Adds self.old self.new 1 (λ (x : List ℕ). same_label x (label (rec_at self.old.policy.now at))) }
    {
        let policy = self.policy;
        let Err(i) = self.search(policy, at) else {
            return;
        };
        insert_word(&mut self.places, self.count, i, at);
        self.count += 1;
    }

    // Adds the label that the step at byte `at` names, if it names one.
    fn add_step(&mut self, at: usize)
        requires { (self.old.count < 2112) × Text self.old.policy.now at × (at < 4294967296) }
        ensures { Adds self.old self.new 1 (λ (x : List ℕ). uses false x (step_of (rec_at self.old.policy.now at))) }
    {
        let first = self.policy[at + LABEL_AT];
        if first != b'*' && first != b'$' {
            self.add(at);
        }
    }

    // Adds the labels that rule k names.
    fn add_rule(&mut self, k: usize)
        requires { Sound self.old.policy.now × (k < rule_count self.old.policy.now) × (self.old.count + 16 ≤ 2112) }
        ensures { Adds self.old self.new 16 (λ (x : List ℕ). some (uses false x) (stored_path self.old.policy.now k)) }
    {
        let a = RULES_AT + k * RULE_BYTES;
        let b = a + STEPS_AT;
        for j in 0..usize::from(self.policy[a + 3]) {
            self.add_step(b + j * RECORD_BYTES);
        }
    }

    // Adds the labels that the rules name.
    pub(crate) fn add_rules(&mut self)
        requires { Sound self.old.policy.now × (self.old.count ≤ 64) }
        ensures { Adds self.old self.new 2048 (named self.old.policy.now) }
    {
        for k in 0..usize::from(self.policy[2]) {
            self.add_rule(k);
        }
    }

    // Adds the names of these subjects.
    pub(crate) fn add_own(&mut self, own: &[u8])
        requires { Sound self.old.policy.now × Subjects self.old.policy.now own.now × (self.old.count + 64 ≤ 2112) }
        ensures { Adds self.old self.new 64 (name_among self.old.policy.now own.now) }
    {
        for u in own {
            self.add(SUBJECTS_AT + usize::from(*u) * RECORD_BYTES);
        }
    }

    // The words for the rights of a subject for which `$` stands for these subjects.
    pub(crate) fn for_rights(policy: &'a [u8], own: &[u8]) -> Self
        requires { Sound policy.now × Subjects policy.now own.now }
        ensures { (result.policy.now ≡ policy.now) × Sorted policy.now own.now result.places result.count }
    {
        let mut words = WordList::new(policy);
        words.add_own(own);
        words.add_rules();
        words
    }

    // Writes the number of the label of each of the first records of a table.
    pub(crate) fn number_nodes(&self, t: &[u8], numbers: &mut [u16])
        requires { (4 + length numbers.old * 32 ≤ length t.now)
            × (records_ok 0 0 (records_from t.now (length numbers.old) 0) ≡ true) }
        ensures { Each (length numbers.old) numbers.old numbers.new
            (λ (i x : ℕ). number_in self.now (label (record_at t.now i))) }
    {
        for i in 0..numbers.len() {
            numbers[i] = self.number(t, COUNT_BYTES + i * RECORD_BYTES) as u16;
        }
    }
}
