// The table of the nodes, read. `specs/Rows.antt` says what its numbers stand for.
#![tactic(auto)]

ghost use Rattle.std.specs.Prelude.{◌≡◌, List, ◌+◌, ◌<◌, length, get_or};
ghost use Rattle.sizes.specs.Sizes.{row_at, store_at};
ghost use Rattle.totdb.specs.Below.{leaves_below, mask};
ghost use Rattle.totdb.specs.Nodes.{Node};
ghost use Rattle.rows.specs.Rows.{Table, read_shown, read_join, SidePlace, JoinPlace};

use totdb::Side;

// A side as the table has it: its length; its node's output of value 1; the place of its first steps, where it is a window.
#[derive(Clone, Copy)]
pub struct Shown {
    pub side: Side,
    pub len: usize,
    pub first: u32,
    pub window: usize,
}

// A join: its number, its output of value 1, and its sides.
#[derive(Clone, Copy)]
pub struct Join {
    pub node: usize,
    pub first: u32,
    pub left: Shown,
    pub right: Shown,
}

// A number of the table.
pub fn number_at(nodes: &[u32], at: usize) -> usize
    requires { at < length nodes.now }
    ensures { (result ≡ get_or nodes.now at 0) × (result < 4294967296) }
{
    nodes[at] as usize
}

// The place of a node's row in the table of the nodes.
pub fn row_at(node: usize) -> usize
    requires { node < 4294967296 }
    ensures { result ≡ row_at node }
{
    sizes::NODES_START + sizes::ROW * node
}

// The place of a node's row in the store.
pub fn store_at(node: usize) -> usize
    requires { node < 4294967296 }
    ensures { result ≡ store_at node }
{
    sizes::STORE_START + sizes::STORE_ROW * node
}

// The leaves below a node, a bit for each.
#[tactic(auto, using(crate::proofs::Reading::below_is))]
pub fn below_at(nodes: &[u32], node: usize) -> u64
    requires { (t : List Node) × Table nodes.now t × (node < length t) }
    ensures { (t : List Node) → Table nodes.now t → node < length t → result ≡ mask (leaves_below t node) }
{
    let at = row_at(node) + sizes::BELOW;
    nodes[at] as u64 | (nodes[at + 1] as u64) << 32
}

// The side whose five numbers stand at `at`.
pub fn shown_at(nodes: &[u32], at: usize) -> Shown
    requires { SidePlace nodes.now at }
    ensures { result ≡ read_shown nodes.now at }
{
    let node = number_at(nodes, at);
    let side = Side {
        node,
        offset: number_at(nodes, at + 1),
        limit: number_at(nodes, at + 2),
    };
    Shown {
        side,
        len: number_at(nodes, at + sizes::SIDE_LEN),
        first: nodes[row_at(node) + sizes::FIRST],
        window: number_at(nodes, at + sizes::SIDE_WINDOW),
    }
}

// A join that is there.
pub fn join_at(nodes: &[u32], node: usize) -> Join
    requires { JoinPlace nodes.now node }
    ensures { result ≡ read_join nodes.now node }
{
    let row = row_at(node);
    Join {
        node,
        first: nodes[row + sizes::FIRST],
        left: shown_at(nodes, row + sizes::LEFT),
        right: shown_at(nodes, row + sizes::RIGHT),
    }
}
