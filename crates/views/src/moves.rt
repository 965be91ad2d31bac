// Moves within the lent bytes of a table, and its cleared tail. What the changes have in common.
ghost use Rattle.std.specs.Prelude.{◌≡◌, ◌++◌, ◌+◌, ◌-◌, ◌≤◌, length, take, drop, replicate};
ghost use Rattle.std.proofs.Math.Seq.{paste};
ghost use Rattle.views.specs.How.Pass.{shifted};

use rights::limits::RECORD_BYTES;

// Moves the record at byte `from` down to byte `to`.
// Kept: by a record of its own: `copy_within` goes byte by byte, and the append of bench/store.py takes a fifth more
// instructions with it.
pub(crate) fn move_record(t: &mut [u8], from: usize, to: usize)
    requires { (to ≤ from) × (from + 32 ≤ length t.old) }
    ensures { t.new ≡ paste t.old to (drop from t.old) 32 }
{
    let mut record = [0; RECORD_BYTES];
    record.copy_from_slice(&t[from..from + RECORD_BYTES]);
    t[to..to + RECORD_BYTES].copy_from_slice(&record);
}

// Zeros from byte `from` to the end.
pub(crate) fn clear_from(t: &mut [u8], from: usize)
    requires { from ≤ length t.old }
    ensures { t.new ≡ take from t.old ++ replicate (length t.old - from) 0 }
{
    t[from..].fill(0);
}

// Moves the bytes from `from` to `end` up by `by`.
pub(crate) fn shift_up(t: &mut [u8], from: usize, end: usize, by: usize)
    requires { (from ≤ end) × (end + by ≤ length t.old) }
    ensures { t.new ≡ shifted t.old from end by }
{
    t.copy_within(from..end, from + by);
}
