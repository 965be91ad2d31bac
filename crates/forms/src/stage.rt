// The stages of document 01, "Lines", in order. A stored state holds the number of its stage in its first byte.
#[derive(Clone, Copy, PartialEq, Eq, Debug)]
pub enum Stage {
    A = 0,
    B = 1,
    C = 2,
    D = 3,
    E = 4,
}

impl From<Stage> for u8 {
    ghost use Rattle.std.specs.Prelude.{◌≡◌};
    ghost use Rattle.forms.specs.How.Codes.{stage_code};

    ghost from_gives = { λ stage number. number ≡ stage_code stage };

    fn from(stage: Stage) -> u8 {
        stage as u8
    }
}
