// A document into an empty table (document 02, card 2): one pass over its tokens, a record for each node.
ghost use Rattle.std.specs.Prelude.{◌≡◌, map, ◌+◌, ◌-◌, ◌*◌, ◌≤◌, length};
ghost use Rattle.rights.specs.Held.{table_bytes, node_bytes};
ghost use Rattle.rights.specs.Record.{pasted, node_record};
ghost use Rattle.xml.specs.How.Lexer.{name_in};
ghost use Rattle.xml.specs.How.Tokens.{document_nodes};
ghost use Rattle.xml.specs.How.Loading.{deepest, Writable};
ghost use Rattle.xml.specs.How.Writer.{all_nodes, Roomy, PutNext, PutAll};

use crate::lexer::{Lexeme, Span, next_token};
use rights::limits::{COUNT_BYTES, RECORD_BYTES};
use rights::record::put_node;
use rights::table::put_count;

// How far the pass has come: the place, how many elements are open there, and how many records stand.
#[derive(Clone, Copy)]
pub(crate) struct Cursor {
    pub at: usize,
    pub depth: usize,
    pub nodes: usize,
}

// Puts record n of a table: a node of a level with a label.
fn put_record(table: &mut [u8], n: usize, level: usize, xml: &[u8], label: Span)
    requires { (4 + n * 32 + 32 ≤ length table.old) × (level ≤ 11)
        × (label.start ≤ label.end) × (label.end ≤ label.start + 24) × (label.end ≤ length xml.now) }
    ensures { table.new ≡ pasted table.old (4 + n * 32) (node_record level (name_in xml.now label)) }
{
    // Kept: `as`, since `try_from` would answer an error that can't come: a level is at most 11.
    put_node(
        table,
        COUNT_BYTES + n * RECORD_BYTES,
        level as u8,
        &xml[label.start..label.end],
    );
}

// One token; none, where the pass is over.
fn put_token(xml: &[u8], p: Cursor, table: &mut [u8]) -> Option<Cursor>
    requires { Roomy xml.now table.old p }
    ensures { PutNext xml.now table.old table.new p result }
{
    match next_token(xml, p.at) {
        Lexeme::Opens(name) => {
            put_record(table, p.nodes, p.depth, xml, name);
            Some(Cursor {
                at: name.next,
                depth: p.depth + 1,
                nodes: p.nodes + 1,
            })
        }
        Lexeme::Closes(name) => Some(Cursor {
            at: name.next,
            depth: p.depth.saturating_sub(1),
            nodes: p.nodes,
        }),
        Lexeme::Empty(label) | Lexeme::Label(label) => {
            put_record(table, p.nodes, p.depth, xml, label);
            Some(Cursor {
                at: label.next,
                depth: p.depth,
                nodes: p.nodes + 1,
            })
        }
        Lexeme::End | Lexeme::Bad => None,
    }
}

// Puts a record for each node: how many there are.
fn put_nodes(xml: &[u8], table: &mut [u8]) -> usize
    requires { (deepest (all_nodes xml.now) ≤ 11) × (4 + length (all_nodes xml.now) * 32 ≤ length table.old) }
    ensures { PutAll xml.now table.old table.new result }
{
    let mut p = Cursor {
        at: 0,
        depth: 0,
        nodes: 0,
    };
    while let Some(q) = put_token(xml, p, table) {
        p = q;
    }
    p.nodes
}

// Writes a document into an empty table.
pub fn write_document(xml: &[u8], table: &mut [u8])
    requires { Writable xml.now table.old }
    ensures { table.new ≡ table_bytes (length table.old) (map node_bytes (document_nodes xml.now)) }
{
    let n = put_nodes(xml, table);
    put_count(table, n);
}
