// Words by their letters: accept and deny, and the rights (document 01, "Lines"). Those that begin a form stand in layout. A word is turned into its number
// while it is passed.
ghost use Rattle.std.specs.Prelude.{◌≡◌, ◌+◌, ◌*◌, ◌^◌, ◌≤◌, ◌<◌, length};
ghost use Rattle.rights.specs.Labels.{label_byte};
ghost use Rattle.rights.specs.How.Reading.{Ends};
ghost use Rattle.forms.specs.Word.{signs, rights};
ghost use Rattle.forms.specs.How.Codes.{text_number_at, by_number, found, next_weight};

use crate::limits::LAST_WEIGHT;
use rights::labels::label_byte;
use rights::path::label_end;

// The place after a run of label bytes, and the number of the word that they write.
// Kept: 0, the number of no letters, also stands for a run too long for a word. An Option is no plainer: whoever looks
// a number up has one arm for all numbers that no word has.
#[derive(Clone, Copy)]
pub struct Run {
    pub end: usize,
    pub number: u64,
}

// The number of a word of number n, once a letter of that weight is added.
fn lettered(n: u64, b: u8, weight: u64) -> u64
    requires { (n < weight) × (weight ≤ 256 ^ 7) }
    ensures { result ≡ n + b * weight }
{
    n + u64::from(b) * weight
}

// The weight of the letter after one of that weight: 256 times as much, and 0 after the eighth letter, the last that a word has.
fn next_weight(weight: u64) -> u64
    ensures { result ≡ next_weight weight }
{
    if weight < LAST_WEIGHT {
        weight * 256
    } else {
        0
    }
}

// The run of label bytes at `at`, each of them passed once. Its number is 0, which no word has, if it is too long for a word.
pub(crate) fn pass_run(s: &[u8], at: usize) -> Run
    requires { at ≤ length s.now }
    ensures { Ends label_byte s.now at result.end × (result.number ≡ text_number_at s.now at) }
{
    let mut number = 0;
    let mut weight = 1;
    for i in at..s.len() {
        let b = s[i];
        if !label_byte(b) {
            return Run { end: i, number };
        }
        if weight == 0 {
            return Run {
                end: label_end(s, i),
                number: 0,
            };
        }
        number = lettered(number, b, weight);
        weight = next_weight(weight);
    }
    Run {
        end: s.len(),
        number,
    }
}

// 1 for `accept` and 2 for `deny`, by its number; none for another word.
#[tactic(auto, unfolding(crate::specs::How::Codes::by_number, crate::specs::How::Codes::text_number))]
pub(crate) fn numbered_sign(n: u64) -> Option<u8>
    ensures { result ≡ found (by_number 0 signs n) }
{
    match n {
        128026086171489 => Some(1),
        2037278052 => Some(2),
        _ => None,
    }
}

// The bit of a right by the number of its name; none for another word.
#[tactic(auto, unfolding(crate::specs::How::Codes::by_number, crate::specs::How::Codes::text_number))]
pub(crate) fn numbered_right(n: u64) -> Option<u8>
    ensures { result ≡ found (by_number 0 rights n) }
{
    match n {
        7957695015293251440 => Some(1),
        1684104562 => Some(2),
        128034677157481 => Some(4),
        111550524584053 => Some(8),
        111550592214372 => Some(16),
        _ => None,
    }
}
