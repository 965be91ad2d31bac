// What a line says (document 01, "Lines"): the word of its form, and the parts that the reader passed.
ghost use Rattle.std.specs.Prelude.{◌≡◌, ◌*◌, ◌≤◌, length};
ghost use Rattle.forms.specs.How.Reader.{FormRead, area_in};

use crate::layout::Word;
use crate::reader::walk;
use crate::stage::Stage;

// What a line says: its word and stage, the places after the word and after each part, and what each part says: 1 for
// accept, a right's bit, a day's number, how many nodes a tree has. A tree's nodes stand in the lent area. What is no
// form (refusal 2) has the word `Other` and no stage.
#[derive(Clone, Copy)]
pub struct Form {
    pub word: Word,
    pub stage: Option<Stage>,
    pub ends: [usize; 5],
    pub says: [usize; 4],
}

// What the line s says. The records of its tree, if it holds one, are put into the lent area from the front, each when its node is passed: a line that is
// refused behind the place where a tree begins leaves the records of the nodes that were passed.
pub fn read_form(s: &[u8], tree: &mut [u8]) -> Form
    requires { 16 * length s.now ≤ length tree.old }
    ensures { FormRead s.now result × (tree.new ≡ area_in s.now tree.old) }
{
    let Some(p) = walk(s, tree) else {
        return Form {
            word: Word::Other,
            stage: None,
            ends: [0; 5],
            says: [0; 4],
        };
    };
    let layout = p.layout;
    let ends = p.ends;
    let says = p.says;
    Form {
        word: layout.word,
        stage: layout.stage,
        ends,
        says,
    }
}
