// What a subject is (document 01, "Rights"), and for whom `$` stands.
ghost use Rattle.std.specs.Prelude.{◌≡◌, true, cond, List, [], ◌∷◌, ◌++◌, ℕ, ◌+◌, ◌≤◌, ◌<◌, length, take, drop};
ghost use Rattle.rights.specs.Isa.{stands_for};
ghost use Rattle.rights.specs.PolicyBytes.{policy_of, subject_count, isa_count};
ghost use Rattle.rights.specs.PolicyCheck.{policy_ok};
ghost use Rattle.rights.specs.How.Roles.{Roles, OwnFirst, lined, widened};
ghost use Rattle.rights.specs.How.Automaton.{Sound};

use crate::limits::{ISA_AT, ISA_BYTES};

// Sets the role that isa line j gives to subject k.
fn add_role(policy: &[u8], k: usize, j: usize, out: &mut [u8; 64])
    requires { Sound policy.now × (j < isa_count policy.now) }
    ensures { out.new ≡ lined policy.now k j out.old }
{
    let a = ISA_AT + j * ISA_BYTES;
    if usize::from(policy[a]) == k {
        out[usize::from(policy[a + 1])] = 1;
    }
}

// Sets the roles that the isa lines give to subject k, if it is a role itself.
fn add_roles(policy: &[u8], k: usize, out: &mut [u8; 64])
    requires { Sound policy.now × (k < 64) }
    ensures { out.new ≡ widened policy.now k out.old }
{
    if out[k] == 0 {
        return;
    }
    for j in 0..usize::from(policy[1]) {
        add_role(policy, k, j, out);
    }
}

// What subject u is: 1 at each of its roles, and 0 elsewhere. An isa line's R stands before its N, so one pass from u down is enough.
pub fn roles_of(policy: &[u8], u: usize) -> [u8; 64]
    requires { (policy_ok policy.now ≡ true) × (u < subject_count policy.now) }
    ensures { Roles policy.now u result }
{
    let mut out = [0u8; 64];
    out[u] = 1;
    for k in (0..u + 1).rev() {
        add_roles(policy, k, &mut out);
    }
    out
}

// Whether `$` stands for subject k, where u is the subject whose rights are asked, or the user, and `roles` what it is. Nothing else decides `$`.
fn stands_for(roles: &[u8; 64], u: usize, k: usize) -> bool
    requires { k < 64 }
    ensures { (p : List ℕ) → Roles p u roles.now → result ≡ stands_for (policy_of p) u k }
{
    roles[k] != 0
}

// Puts subject k behind the first m subjects, if it is to be one of them; how many they are now.
fn put_subject(on: bool, k: usize, m: usize, out: &mut [u8; 64]) -> usize
    requires { (k < 64) × (m ≤ k) × (length out.old ≡ 64) }
    ensures { (take result out.new ≡ cond on (take m out.old ++ (k ∷ [])) (take m out.old)) × (result ≤ m + 1)
        × (length out.new ≡ 64)
        × ((before : List ℕ) → drop m out.old ≡ drop m before → drop result out.new ≡ drop result before) }
{
    if on {
        out[m] = k as u8;
        return m + 1;
    }
    m
}

// Writes the subjects for which `$` stands to the front of `out`, and returns how many they are.
pub fn own_subjects(policy: &[u8], u: usize, roles: &[u8; 64], out: &mut [u8; 64]) -> usize
    requires { (policy_ok policy.now ≡ true) × Roles policy.now u roles.now × (length out.old ≡ 64) }
    ensures { OwnFirst policy.now u out.new result × (drop result out.new ≡ drop result out.old) }
{
    let mut m = 0;
    for k in 0..usize::from(policy[0]) {
        m = put_subject(stands_for(roles, u, k), k, m, out);
    }
    m
}
