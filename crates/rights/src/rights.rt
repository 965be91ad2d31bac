// The rights of a subject on every node (document 01, "Rights"): the last applicable rule for a right decides, with none there is no right.
ghost use Rattle.std.specs.Prelude.{◌≡◌, ◌++◌, true, cond, ℕ, ◌≤◌, ◌<◌, length, drop};
ghost use Rattle.rights.specs.Table.{records, count, table_ok};
ghost use Rattle.rights.specs.Policy.{Right, bit_of};
ghost use Rattle.rights.specs.PolicyCheck.{bit_ok, policy_ok};
ghost use Rattle.rights.specs.PolicyBytes.{policy_of, subject_count};
ghost use Rattle.rights.specs.Rights.{rights_on, holds};
ghost use Rattle.rights.specs.How.Groups.{asked_on};
ghost use Rattle.rights.specs.How.Roles.{Roles, Own};
ghost use Rattle.rights.specs.How.Automaton.{Sound};
ghost use Rattle.rights.specs.How.Vocabulary.{uses_own};

use crate::groups::Trial;
use crate::isa::{own_subjects, roles_of};
use crate::limits::{ALL_RIGHTS, RECORDS_MAX, SUBJECTS_MAX};
use crate::policy::rules_use_own;
use crate::table::count_of;
use crate::vocabulary::WordList;

// How many of these subjects have names that decide rights: all where a rule uses `$`, and none elsewhere.
fn names_used(policy: &[u8], own: &[u8]) -> usize
    requires { Sound policy.now }
    ensures { result ≡ cond (uses_own policy.now) (length own.now) 0 }
{
    if rules_use_own(policy) { own.len() } else { 0 }
}

// Writes the asked ones of the rights that subject u has on each node of a table: one byte a node, one bit a right. `roles` is what u is, and `own` are the
// subjects for which `$` stands.
pub fn asked_on(
    policy: &[u8],
    u: usize,
    roles: &[u8; 64],
    own: &[u8],
    table: &[u8],
    asked: u8,
    out: &mut [u8],
)
    requires { (policy_ok policy.now ≡ true) × Roles policy.now u roles.now × Own policy.now u own.now × (table_ok table.now ≡ true)
        × (count table.now ≤ length out.old) }
    ensures { out.new ≡ asked_on asked (policy_of policy.now) u (records table.now) ++ drop
        (count table.now) out.old }
{
    let n = count_of(table);
    let own = &own[..names_used(policy, own)];
    let words = WordList::for_rights(policy, own);
    let mut numbers = [0; RECORDS_MAX];
    let numbers = &mut numbers[..n];
    words.number_nodes(table, numbers);
    out[..n].fill(0);
    let trial = Trial {
        words: &words,
        own,
        roles,
        table,
        numbers,
    };
    trial.try_rights(asked, out);
}

// Writes the rights that subject u has on each node of a table.
pub fn rights_on(policy: &[u8], u: usize, table: &[u8], out: &mut [u8])
    requires { (policy_ok policy.now ≡ true) × (u < subject_count policy.now) × (table_ok table.now ≡ true)
        × (count table.now ≤ length out.old) }
    ensures { out.new ≡ rights_on (policy_of policy.now) u (records table.now) ++ drop (count table.now)
        out.old }
{
    let roles = roles_of(policy, u);
    let mut subjects = [0u8; SUBJECTS_MAX];
    let m = own_subjects(policy, u, &roles, &mut subjects);
    asked_on(policy, u, &roles, &subjects[..m], table, ALL_RIGHTS, out);
}

// Whether a set of rights holds the right with this bit.
pub fn holds_right(set: u8, right: u8) -> bool
    requires { bit_ok right ≡ true }
    ensures { (w : Right) → bit_of w ≡ right → result ≡ holds w set }
{
    set / right % 2 == 1
}
