// Marks: a byte for each node, set unless 0.
ghost use Rattle.std.specs.Prelude.{◌≡◌, ◌≤◌, length};
ghost use Rattle.rights.specs.Marks.{marks_of, mark_count};

// How many nodes are marked.
pub fn count_marks(marks: &[u8]) -> usize
    ensures { (result ≡ mark_count (marks_of marks.now)) × (result ≤ length marks.now) }
{
    let mut k = 0;
    for i in 0..marks.len() {
        if marks[i] != 0 {
            k += 1;
        }
    }
    k
}
