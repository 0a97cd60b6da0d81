// The table of the nodes: what it has, a leaf looked up in it, and a leaf or a join added to it. The table's facts stay clauses: it
// is lent in turn to be read and to be written.
#![tactic(auto)]

ghost use Rattle.std.specs.Prelude.{◌≡◌, List, [], ◌∷◌, ◌++◌, ℕ, ◌+◌, ◌≤◌, ◌<◌, length};
ghost use Rattle.std.proofs.Math.Seq.{paste};
ghost use Rattle.std.proofs.lemmas.List.Edits.{sets};
ghost use Rattle.sizes.specs.Sizes.{row, row_at, below_column, list_column, width, most_leaves, most_nodes, most_variable};
ghost use Rattle.totdb.specs.Below.{leaves_below, share_leaf, mask};
ghost use Rattle.totdb.specs.Nodes.{Node, leaf, node_at, len, join_of, joined, part, plain_or, plain_form, side_len, side_leaves, leaf_count};
ghost use Rattle.totdb.specs.Leaves.{lookup_leaf};
ghost use Rattle.totdb.specs.declared.Side.{Side};
ghost use Rattle.rows.specs.Rows.{Table};
ghost use Rattle.rows.specs.Windows.{SideAt, shows, window_from, window_at};
ghost use Rattle.nodes.specs.Added.{Leafable, Joinable, Sided, Small, place_or_none, window_place, shown_of, mask_numbers, leaf_numbers, side_numbers, join_numbers};

use rows::Shown;
use totdb::{LeafLookup, Side};

// The lookup of a leaf by its literal (rustsat's map `lookup_leaf`), from the last made to the first. `count` is the number of
// leaves.
pub fn lookup_leaf(nodes: &[u32], count: usize, literal: u32) -> LeafLookup
    requires { (t : List Node) × Table nodes.now t × (leaf_count t ≡ count) }
    ensures { (t : List Node) → Table nodes.now t → leaf_count t ≡ count → result ≡ lookup_leaf t literal }
{
    // By the index: with `iter().rev().position` a script that looks up the oldest leaf takes 19% more instructions.
    for i in (0..count).rev() {
        if nodes[i] == literal {
            return LeafLookup {
                node: Some(rows::number_at(nodes, sizes::LEAF_NODES + i)),
                looked_at: count - i,
            };
        }
    }
    LeafLookup {
        node: None,
        looked_at: count,
    }
}

// A leaf has the literal.
#[tactic(auto, using(totdb::proofs::Leaves::known_found))]
pub fn known(nodes: &[u32], count: usize, literal: u32) -> bool
    requires { (t : List Node) × Table nodes.now t × (leaf_count t ≡ count) }
    ensures { (t : List Node) → Table nodes.now t → leaf_count t ≡ count → result ≡ Rattle.totdb.specs.Nodes.known t literal }
{
    lookup_leaf(nodes, count, literal).is_found()
}

// A leaf lies below both nodes (question 9).
pub fn share_leaf(nodes: &[u32], node: usize, other: usize) -> bool
    requires { (t : List Node) × Table nodes.now t × (node < length t) × (other < length t) }
    ensures { (t : List Node) → Table nodes.now t → node < length t → other < length t → result ≡ share_leaf t node other }
{
    rows::below_at(nodes, node) & rows::below_at(nodes, other) != 0
}

// The length of a node.
pub fn len(nodes: &[u32], node: usize) -> usize
    requires { (t : List Node) × Table nodes.now t × (node < length t) }
    ensures { (t : List Node) → Table nodes.now t → node < length t → result ≡ len (node_at t node) }
{
    rows::number_at(nodes, rows::row_at(node))
}

// A row that was made apart.
fn put_row(nodes: &mut [u32], node: usize, r: &[u32; sizes::ROW])
    requires { (node < 4294967296) × (row_at node + row ≤ length nodes.old) × (length r.now ≡ row) }
    ensures { nodes.new ≡ paste nodes.old (row_at node) r.now row }
{
    let at = rows::row_at(node);
    nodes[at..at + sizes::ROW].copy_from_slice(r);
}

// Writes the leaves below a node, a bit for each, as two numbers.
fn put_below(r: &mut [u32], below: u64)
    requires { list_column ≤ length r.old }
    ensures { r.new ≡ sets r.old below_column (mask_numbers below) }
{
    r[sizes::BELOW] = (below & 0xffff_ffff) as u32;
    r[sizes::BELOW + 1] = (below >> 32) as u32;
}

// The row of a leaf, which was made after k others.
fn leaf_row(literal: u32, k: usize) -> [u32; sizes::ROW]
    requires { k < most_leaves }
    ensures { result ≡ leaf_numbers literal k }
{
    let mut r = [0u32; sizes::ROW];
    r[sizes::LEN] = 1;
    r[sizes::FIRST] = literal;
    put_below(&mut r, 1 << k);
    r[sizes::LIST] = literal;
    r
}

// A leaf, as node n and as leaf k.
pub fn add_leaf(nodes: &mut [u32], n: usize, k: usize, literal: u32)
    requires room { row_at (n + 1) ≤ length nodes.old }
    requires leafable { (t : List Node) × Leafable nodes.old t n k literal }
    ensures { (t : List Node) → Leafable nodes.old t n k literal → Table nodes.new (t ++ (leaf literal ∷ [])) }
{
    let r = leaf_row(literal, k);
    put_row(nodes, n, &r);
    nodes[k] = literal;
    nodes[sizes::LEAF_NODES + k] = n as u32;
}

// The side whose numbers stand at `at` shows so many outputs of s.node above s.offset.
fn shows(nodes: &[u32], at: usize, s: Side, len: usize) -> bool
    requires { (t : List Node) × Table nodes.now t × (w : ℕ) × (u : Side) × SideAt t at w u }
    ensures { (t : List Node) → Table nodes.now t → (w : ℕ) (u : Side) → SideAt t at w u → result ≡ shows t s.node s.offset len u }
{
    rows::number_at(nodes, at) == s.node
        && rows::number_at(nodes, at + 1) == s.offset
        && rows::number_at(nodes, at + sizes::SIDE_LEN) == len
}

// The place in the store of the first steps of a window that a side of node i shows.
fn window_of(nodes: &[u32], i: usize, s: Side, len: usize) -> Option<usize>
    requires { (t : List Node) × Table nodes.now t × (i < length t) }
    ensures { (t : List Node) → Table nodes.now t → i < length t
        → result ≡ place_or_none (window_from t s.node s.offset len (node_at t i ∷ []) i) }
{
    let row = rows::row_at(i);
    if nodes[row + sizes::KIND] == 0 {
        return None;
    }
    let base = rows::store_at(i);
    if shows(nodes, row + sizes::LEFT, s, len) {
        return Some(base + sizes::LEFT_WINDOW);
    }
    if shows(nodes, row + sizes::RIGHT, s, len) {
        return Some(base + sizes::RIGHT_WINDOW);
    }
    None
}

// The same, of the first side that shows it among the n nodes. Only joins after the node itself have it under a side.
fn find_window(nodes: &[u32], n: usize, s: Side, len: usize) -> Option<usize>
    requires { (t : List Node) × Table nodes.now t × (length t ≡ n) × (s.node < n) }
    ensures { (t : List Node) → Table nodes.now t → length t ≡ n → result ≡ place_or_none (window_at t s.node s.offset len) }
{
    (s.node + 1..n).find_map(|i| window_of(nodes, i, s, len))
}

// Where the first steps of a side's window stand: at `own`, unless a side of the n nodes shows the same.
fn window_place(nodes: &[u32], n: usize, s: Side, len: usize, own: usize) -> usize
    requires { (t : List Node) × Table nodes.now t × (length t ≡ n) × (s.node < n) }
    ensures { (t : List Node) → Table nodes.now t → length t ≡ n → result ≡ window_place t s len own }
{
    if s.is_plain() {
        return own;
    }
    find_window(nodes, n, s, len).unwrap_or(own)
}

// A side of node n, as its row has it, with `own` as its own place for the first steps of its window.
#[tactic(auto, using(rows::proofs::Reading::len_is, rows::proofs::Reading::first_is), unfolding(totdb::specs::Nodes::side_len))]
fn shown(nodes: &[u32], n: usize, s: Side, own: usize) -> Shown
    requires { (t : List Node) × Table nodes.now t × (length t ≡ n) × (s.node < n) }
    ensures { (t : List Node) → Table nodes.now t → length t ≡ n → s.node < n → result ≡ shown_of t s (window_place t s (side_len t s) own) }
{
    let row = rows::row_at(s.node);
    let len = s.len(rows::number_at(nodes, row));
    Shown {
        side: s,
        len,
        first: nodes[row + sizes::FIRST],
        window: window_place(nodes, n, s, len, own),
    }
}

// A side's literals, from the lists of its node, to a row from `at` on.
fn append_side(nodes: &[u32], r: &mut [u32], at: usize, s: Shown)
    requires room { at + s.len ≤ length r.old }
    requires sided { (t : List Node) × Sided nodes.now t s }
    ensures { (t : List Node) → Sided nodes.now t s → r.new ≡ paste r.old at (side_leaves t s.side) s.len }
{
    let side = s.side;
    let row = rows::row_at(side.node);
    let outputs = totdb::outputs(s.first, rows::number_at(nodes, row));
    let list = row + sizes::LIST;
    let leaf_list = &nodes[list..list + sizes::WIDTH];
    let l = totdb::literals(leaf_list, &outputs, side.is_plain(), side.offset, s.len);
    r[at..at + s.len].copy_from_slice(l);
}

// A side's numbers, from `at` on.
fn put_side(r: &mut [u32], at: usize, s: Shown)
    requires { (at + 5 ≤ length r.old) × Small s }
    ensures { r.new ≡ sets r.old at (side_numbers s) }
{
    r[at] = s.side.node as u32;
    r[at + 1] = s.side.offset as u32;
    r[at + 2] = s.side.limit as u32;
    r[at + sizes::SIDE_LEN] = s.len as u32;
    r[at + sizes::SIDE_WINDOW] = s.window as u32;
}

// The row of a join of two sides.
fn join_row(nodes: &[u32], variable: u32, l: Shown, r: Shown) -> [u32; sizes::ROW]
    requires limits { (variable ≤ most_variable) × (l.len + r.len ≤ width) × (l.window < 4294967296) × (r.window < 4294967296) }
    requires sided { (t : List Node) × Sided nodes.now t l × Sided nodes.now t r }
    ensures { (t : List Node) → Sided nodes.now t l → Sided nodes.now t r
        → result ≡ join_numbers variable (mask (leaves_below t l.side.node ++ leaves_below t r.side.node))
        l (side_leaves t l.side) r (side_leaves t r.side) }
{
    let mut row = [0u32; sizes::ROW];
    append_side(nodes, &mut row, sizes::LIST, l);
    append_side(nodes, &mut row, sizes::LIST + l.len, r);
    row[sizes::LEN] = (l.len + r.len) as u32;
    row[sizes::FIRST] = 2 * variable;
    row[sizes::KIND] = 1;
    let left = rows::below_at(nodes, l.side.node);
    let right = rows::below_at(nodes, r.side.node);
    put_below(&mut row, left | right);
    put_side(&mut row, sizes::LEFT, l);
    put_side(&mut row, sizes::RIGHT, r);
    row
}

// A join of two sides as they are, as node n, its outputs on the variables from `variable` up. Its length.
fn put_join(nodes: &mut [u32], n: usize, variable: u32, l: Side, r: Side) -> usize
    requires room { row_at (n + 1) ≤ length nodes.old }
    requires joinable { (t : List Node) × Joinable nodes.old t n variable l r }
    ensures { (t : List Node) → Joinable nodes.old t n variable l r
        → (result ≡ len (join_of t variable l r)) × Table nodes.new (t ++ (join_of t variable l r ∷ [])) }
{
    let base = rows::store_at(n);
    let left = shown(nodes, n, l, base + sizes::LEFT_WINDOW);
    let right = shown(nodes, n, r, base + sizes::RIGHT_WINDOW);
    let row = join_row(nodes, variable, left, right);
    put_row(nodes, n, &row);
    left.len + right.len
}

// A side in its plain form.
fn plain_form(nodes: &[u32], s: Side) -> Side
    requires { (t : List Node) × Table nodes.now t × (s.node < length t) }
    ensures { (t : List Node) → Table nodes.now t → s.node < length t → result ≡ plain_form t s }
{
    s.plain_form(len(nodes, s.node))
}

// A join of two sides in their plain forms. Its length.
pub fn add_join(nodes: &mut [u32], n: usize, variable: u32, l: Side, r: Side) -> usize
    requires room { row_at (n + 1) ≤ length nodes.old }
    requires joinable { (t : List Node) × Joinable nodes.old t n variable l r }
    ensures { (t : List Node) → Joinable nodes.old t n variable l r
        → (result ≡ len (joined t variable l r)) × Table nodes.new (t ++ (joined t variable l r ∷ [])) }
{
    let left = plain_form(nodes, l);
    let right = plain_form(nodes, r);
    put_join(nodes, n, variable, left, right)
}
