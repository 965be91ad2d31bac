// The words that begin a form, each with its stage and the kinds of the parts that follow it (document 01, "Lines").
ghost use Rattle.forms.specs.How.Codes.{by_number, LaidOut};
ghost use Rattle.forms.specs.Layout.{words};

use crate::kind::Kind;
use crate::stage::Stage;

#[derive(Clone, Copy)]
pub enum Word {
    Subject,
    Isa,
    Rule,
    Root,
    Child,
    User,
    View,
    Query,
    Find,
    Rename,
    Update,
    Append,
    Before,
    After,
    Remove,
    Sheet,
    Day,
    Window,
    Other,
}

// A form's word, its stage (none for what is no form), and the kinds of its parts in order: at most four.
#[derive(Clone, Copy)]
pub struct Layout {
    pub word: Word,
    pub stage: Option<Stage>,
    pub kinds: [Option<Kind>; 4],
}

// The layout of a word by its number.
#[tactic(auto, unfolding(crate::specs::How::Codes::by_number, crate::specs::How::Codes::text_number))]
pub(crate) fn numbered_layout(n: u64) -> Layout
    ensures { LaidOut (by_number Word.Other words n) result }
{
    match n {
        32760384526120307 => Layout {
            word: Word::Subject,
            stage: Some(Stage::A),
            kinds: [Some(Kind::Label), None, None, None],
        },
        6386537 => Layout {
            word: Word::Isa,
            stage: Some(Stage::A),
            kinds: [Some(Kind::Label), Some(Kind::Label), None, None],
        },
        1701606770 => Layout {
            word: Word::Rule,
            stage: Some(Stage::B),
            kinds: [
                Some(Kind::Sign),
                Some(Kind::Right),
                Some(Kind::Path),
                Some(Kind::Label),
            ],
        },
        1953460082 => Layout {
            word: Word::Root,
            stage: Some(Stage::C),
            kinds: [Some(Kind::Label), None, None, None],
        },
        431315576931 => Layout {
            word: Word::Child,
            stage: Some(Stage::D),
            kinds: [Some(Kind::Tree), None, None, None],
        },
        1919251317 => Layout {
            word: Word::User,
            stage: Some(Stage::E),
            kinds: [Some(Kind::Label), None, None, None],
        },
        2003134838 => Layout {
            word: Word::View,
            stage: Some(Stage::E),
            kinds: [None, None, None, None],
        },
        521610294641 => Layout {
            word: Word::Query,
            stage: Some(Stage::E),
            kinds: [Some(Kind::Path), None, None, None],
        },
        1684957542 => Layout {
            word: Word::Find,
            stage: Some(Stage::E),
            kinds: [Some(Kind::Path), None, None, None],
        },
        111520460465522 => Layout {
            word: Word::Rename,
            stage: Some(Stage::E),
            kinds: [Some(Kind::Path), Some(Kind::Label), None, None],
        },
        111550524584053 => Layout {
            word: Word::Update,
            stage: Some(Stage::E),
            kinds: [Some(Kind::Path), Some(Kind::Label), None, None],
        },
        110425311047777 => Layout {
            word: Word::Append,
            stage: Some(Stage::E),
            kinds: [Some(Kind::Path), Some(Kind::Tree), None, None],
        },
        111542169658722 => Layout {
            word: Word::Before,
            stage: Some(Stage::E),
            kinds: [Some(Kind::Path), Some(Kind::Tree), None, None],
        },
        491328398945 => Layout {
            word: Word::After,
            stage: Some(Stage::E),
            kinds: [Some(Kind::Path), Some(Kind::Tree), None, None],
        },
        111559349986674 => Layout {
            word: Word::Remove,
            stage: Some(Stage::E),
            kinds: [Some(Kind::Path), None, None, None],
        },
        499917351027 => Layout {
            word: Word::Sheet,
            stage: Some(Stage::E),
            kinds: [Some(Kind::Label), None, None, None],
        },
        7954788 => Layout {
            word: Word::Day,
            stage: Some(Stage::E),
            kinds: [Some(Kind::Day), None, None, None],
        },
        131320310032759 => Layout {
            word: Word::Window,
            stage: Some(Stage::E),
            kinds: [Some(Kind::Path), Some(Kind::Day), Some(Kind::Day), None],
        },
        _ => Layout {
            word: Word::Other,
            stage: None,
            kinds: [None, None, None, None],
        },
    }
}
