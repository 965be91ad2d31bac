// The call that loads the solver's file (document 02, card 2), in place of root and child lines.
ghost use Rattle.std.specs.Prelude.{◌≡◌, true, ◌≤◌, ◌<◌, length};
ghost use Rattle.forms.specs.How.Codes.{stage_code};
ghost use Rattle.xml.specs.How.Loading.{tally_of};
ghost use Rattle.xml.specs.How.Tokens.{is_document, document_nodes};
ghost use Rattle.lines.specs.State.{stage, store_ok};
ghost use Rattle.lines.specs.Outcome.{Made};
ghost use Rattle.lines.specs.Refusal.{first_refusal, numbered, refusal_number};
ghost use Rattle.store.specs.LoadXml.{store_checks, nodes_stage, load_xml};
ghost use Rattle.store.specs.How.Load.{tally_checks};

use answers::answer::answer_ok;
use forms::stage::Stage;
use lines::line::Answer;
use lines::refusals::{Refusal, area_refusal};
use lines::state::store_ok;
use rights::limits::LEVEL_MAX;
use rights::table::capacity_of;
use xml::document::{Tally, check_document};
use xml::writer::write_document;

// The refusal of a store that does not pass, or has a root.
fn store_refusal(state: &[u8], table: &[u8]) -> Result<(), Refusal>
    ensures { refusal_number result ≡ first_refusal (store_checks state.now table.now) }
{
    if !store_ok(state, table) {
        return Err(Refusal::BadStore);
    }
    if u8::from(Stage::C) <= state[0] {
        return Err(Refusal::WrongStage);
    }
    Ok(())
}

// The refusal of a document, by what its check told, for a table of `size` bytes.
fn tally_refusal(tally: Tally, size: usize) -> Result<(), Refusal>
    requires { 4 ≤ size }
    ensures { refusal_number result ≡ first_refusal (tally_checks size tally) }
{
    if tally.restricted {
        return Err(Refusal::BannedLabel);
    }
    if LEVEL_MAX < tally.deepest {
        return Err(Refusal::LevelTooDeep);
    }
    if capacity_of(size) < tally.nodes {
        return Err(Refusal::TableFull);
    }
    Ok(())
}

// The stage that n nodes leave: C for the root alone, else D.
fn nodes_stage(n: usize) -> Stage
    ensures { stage_code result ≡ nodes_stage n }
{
    if n <= 1 { Stage::C } else { Stage::D }
}

// Takes a document in where no root stands; its check told the tally.
fn take_document(
    state: &mut [u8],
    table: &mut [u8],
    xml: &[u8],
    tally: Tally,
    area: &mut [u8],
) -> Answer
    requires { (store_ok state.old table.old ≡ true) × (stage state.old < 2) × (is_document xml.now ≡ true)
        × (tally ≡ tally_of (document_nodes xml.now)) }
    ensures { Made (load_xml state.old table.old xml.now (length area.old))
        area.old (numbered result) state.new table.new area.new }
{
    tally_refusal(tally, table.len())?;
    let need = answer_ok(area);
    area_refusal(need, area.len())?;
    write_document(xml, table);
    state[0] = u8::from(nodes_stage(tally.nodes));
    Ok(need)
}

// Loads a document into an empty table. Whatever is lent, what is returned and left is `load_xml`.
pub fn load_xml(state: &mut [u8], table: &mut [u8], xml: &[u8], area: &mut [u8]) -> Answer
    ensures { Made (load_xml state.old table.old xml.now (length area.old))
        area.old (numbered result) state.new table.new area.new }
{
    store_refusal(state, table)?;
    let Some(tally) = check_document(xml) else {
        return Err(Refusal::NoDocument);
    };
    take_document(state, table, xml, tally, area)
}
