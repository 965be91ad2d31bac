// The refusals (document 01, "Who can be turned down, and for what", and the cards of document 02), each with its number, and the last test of every line.
//
// A group of tests is a function that refuses with the first one that fails.
ghost use Rattle.std.specs.Prelude.{◌≡◌, [], ◌∷◌};
ghost use Rattle.lines.specs.Refusal.{area_check, first_refusal, refusal_number};

#[derive(Clone, Copy, PartialEq, Eq, Debug)]
pub enum Refusal {
    // "too long or a byte outside 32 to 126"
    BadLine = 1,

    // "no form listed above"
    NoForm = 2,

    // "wrong stage"
    WrongStage = 3,

    // "path not well formed"
    BadPath = 4,

    // "a name unknown, declared twice, an isa line repeated, or R not before N"
    BadName = 5,

    // "a bracket in a rule's path"
    RuleBracket = 6,

    // "more than the policy's maximum"
    PolicyFull = 7,

    // "no user yet"
    NoUserYet = 8,

    // "RESTRICTED as a label .., or a policy word as new label of rename or update"
    BannedLabel = 9,

    // "a level above 11 in a child line or at a place that would be done"
    LevelTooDeep = 10,

    // "fewer free records than the whole line needs"
    TableFull = 11,

    // "answer area shorter than the answer"
    AreaShort = 12,

    // "a table .. against "Tree and table"; a state against the limits, names, paths or stages above; a root in the table without the root line taken, or the reverse"
    BadStore = 13,

    // "attributes, comments, declarations, entities, CDATA, mismatched tags or anything else outside this kind" (document 02, card 2)
    NoDocument = 14,

    // "a day outside 1 to 366 or F after T" (document 02, card 7)
    BadDay = 15,
}

impl From<Refusal> for u8 {
    ghost use Rattle.lines.specs.Refusal.{number_of};

    ghost from_gives = { λ refusal number. number ≡ number_of refusal };

    fn from(refusal: Refusal) -> u8 {
        refusal as u8
    }
}

// Refuses an answer of `need` bytes in an area of `room` that is shorter.
pub fn area_refusal(need: usize, room: usize) -> Result<(), Refusal>
    ensures { refusal_number result ≡ first_refusal (area_check room need ∷ []) }
{
    if room < need {
        return Err(Refusal::AreaShort);
    }
    Ok(())
}
