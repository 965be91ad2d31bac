// The bytes of a line (document 01, "Lines").
ghost use Rattle.std.specs.Prelude.{◌≡◌};
ghost use Rattle.forms.specs.Text.{line_byte, line_ok};

use crate::limits::{BYTE_MAX, BYTE_MIN, LINE_MAX};

// Whether a byte may stand in a line.
#[tactic(auto, unfolding(crate::specs::Text::line_byte))]
fn line_byte(b: u8) -> bool
    ensures { result ≡ line_byte b }
{
    (BYTE_MIN..=BYTE_MAX).contains(&b)
}

// Whether a line is short enough and all its bytes may stand in it: otherwise it is refused with 1.
#[tactic(auto, unfolding(crate::specs::Text::line_ok), using(rights::proofs::ListLaws::all_from))]
pub fn line_ok(s: &[u8]) -> bool
    ensures { result ≡ line_ok s.now }
{
    s.len() <= LINE_MAX && s.iter().all(|&b| line_byte(b))
}
