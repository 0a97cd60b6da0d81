// The commands over the tables: questions 6 to 12, 14 and 15, and what a command does that passes them.
#![tactic(auto)]

ghost use Rattle.std.specs.Prelude.{◌≡◌, List, ℕ, ◌<◌, length};
ghost use Rattle.totdb.specs.Nodes.{Node, join_count};
ghost use Rattle.cert.specs.State.{State, Head};
ghost use Rattle.rows.specs.Rows.{Table};
ghost use Rattle.define.specs.Represents.{memory};
ghost use Rattle.player.specs.Player.{first_no, fits_over, questions};
ghost use Rattle.player.specs.Refusals.{refused_by};
ghost use Rattle.player.specs.declared.Command.{Command};
ghost use Rattle.commands.specs.Standing.{Standing, Room, Played, Ready, Asked, end_of};

use player::{Command, Refusal};
use request::Directions;
use totdb::Side;

// How far the play is: the place of the log's next byte, the next step, the clauses, the nodes, the leaves among them, and the
// next variable.
#[derive(Clone, Copy)]
pub struct Totals {
    pub at: usize,
    pub step: u32,
    pub clauses: u32,
    pub nodes: usize,
    pub leaves: usize,
    pub variable: u32,
}

// Each command comes to the totals after it, or to its refusal, after which the totals are those before it. What it needs of tables
// and totals is one name, `Ready`.

// Questions 6 and 7, then a new leaf.
fn leaf(nodes: &mut [u32], t: Totals, first_variable: u32, literal: u32) -> Result<Totals, Refusal>
    requires { (store log : List ℕ) × (r : Ready nodes.old store log t) × (first_variable ≡ r.head.variable) }
    ensures { (h : Head) (c : ℕ) (store log : List ℕ) (s : State) → first_variable ≡ h.variable
        → Standing h c nodes.old (memory store log t.at) t s → Room nodes.old store t.nodes
        → Played h c (Command.Leaf literal) s t nodes.new store log result }
{
    if first_variable <= literal / 2 {
        return Err(Refusal::LeafVariable);
    }
    if nodes::known(nodes, t.leaves, literal) {
        return Ok(t);
    }
    if nodes::known(nodes, t.leaves, pb::neg(literal)) || sizes::MOST_LEAVES <= t.leaves {
        return Err(Refusal::Leaf);
    }
    nodes::add_leaf(nodes, t.nodes, t.leaves, literal);
    Ok(Totals {
        nodes: t.nodes + 1,
        leaves: t.leaves + 1,
        ..t
    })
}

// Question 10, of one side over a node of so many values.
fn fits(s: Side, node_len: usize) -> bool
    ensures { result ≡ fits_over s node_len }
{
    s.offset < node_len && s.limit <= node_len - s.offset
}

// Questions 8, 9, 15 and 10, over so many nodes, of which so many are joins.
fn ask_join(nodes: &[u32], count: usize, joins: usize, l: Side, r: Side) -> Result<(), Refusal>
    requires { (t : List Node) × Table nodes.now t × (length t ≡ count) × (join_count t ≡ joins) }
    ensures { (h : Head) (t : List Node) → Table nodes.now t → length t ≡ count → join_count t ≡ joins
        → refused_by result ≡ first_no (questions h t (Command.Join l r)) }
{
    if count <= l.node || count <= r.node {
        return Err(Refusal::NoNode);
    }
    if nodes::share_leaf(nodes, l.node, r.node) {
        return Err(Refusal::SharedLeaf);
    }
    if sizes::MOST_JOINS <= joins {
        return Err(Refusal::TooManyJoins);
    }
    if !fits(l, nodes::len(nodes, l.node)) || !fits(r, nodes::len(nodes, r.node)) {
        return Err(Refusal::Window);
    }
    Ok(())
}

// Questions 8, 9, 15 and 10, then a new join.
fn join(nodes: &mut [u32], t: Totals, l: Side, r: Side) -> Result<Totals, Refusal>
    requires { (store log : List ℕ) × Ready nodes.old store log t }
    ensures { (h : Head) (c : ℕ) (store log : List ℕ) (s : State) → Standing h c nodes.old (memory store log t.at) t s
        → Room nodes.old store t.nodes → Played h c (Command.Join l r) s t nodes.new store log result }
{
    ask_join(nodes, t.nodes, t.nodes - t.leaves, l, r)?;
    let len = nodes::add_join(nodes, t.nodes, t.variable, l, r);
    Ok(Totals {
        nodes: t.nodes + 1,
        variable: t.variable + len as u32,
        ..t
    })
}

// Question 14, of a command that began with t and came to this place, step and number of clauses, in a log of so many bytes.
fn end(length: usize, t: Totals, at: usize, step: u32, clauses: u32) -> Result<Totals, Refusal>
    ensures { result ≡ end_of length t at step clauses }
{
    if length < at {
        return Err(Refusal::LogFull);
    }
    Ok(Totals {
        at,
        step,
        clauses,
        ..t
    })
}

// Questions 8, 11 and 12.
fn ask_request(
    nodes: &[u32],
    count: usize,
    node: usize,
    value: usize,
    direction: u32,
) -> Result<Directions, Refusal>
    requires { (t : List Node) × Table nodes.now t × (length t ≡ count) }
    ensures { (h : Head) (t : List Node) → Table nodes.now t → length t ≡ count
        → Asked direction (first_no (questions h t (Command.Request node value direction))) result }
{
    if count <= node {
        return Err(Refusal::NoNode);
    }
    if value == 0 || nodes::len(nodes, node) < value {
        return Err(Refusal::Value);
    }
    let Ok(directions) = Directions::try_from(direction) else {
        return Err(Refusal::Direction);
    };
    Ok(directions)
}

// Questions 8, 11 and 12, then all that the request writes, and question 14.
fn request(
    nodes: &[u32],
    store: &mut [u32],
    log: &mut [u8],
    t: Totals,
    node: usize,
    value: usize,
    direction: u32,
) -> Result<Totals, Refusal>
    requires { Ready nodes.now store.old log.old t }
    ensures { (h : Head) (c : ℕ) (s : State)
        → Standing h c nodes.now (memory store.old log.old t.at) t s
        → Played h c (Command.Request node value direction) s t nodes.now store.new log.new result }
{
    let directions = ask_request(nodes, t.nodes, node, value, direction)?;
    let at = request::request(nodes, store, log, t.at, node, value, directions);
    end(log.len(), t, at, store[sizes::STEP], store[sizes::CLAUSES])
}

// The deletion of every stored definition's steps, ascending, and question 14.
fn close(nodes: &[u32], store: &[u32], log: &mut [u8], t: Totals) -> Result<Totals, Refusal>
    requires { Ready nodes.now store.now log.old t }
    ensures { (h : Head) (c : ℕ) (s : State)
        → Standing h c nodes.now (memory store.now log.old t.at) t s
        → Played h c Command.Close s t nodes.now store.now log.new result }
{
    let marks = rows::number_at(store, sizes::MARKS);
    let at = closing::put_deletion(nodes, store, log, t.at, marks);
    end(log.len(), t, at, t.step, t.clauses)
}

// A command: refused at the first question that fails, or done. What it wrote in vain lies from the place
// on that is kept. The tables and the log are slices of their own, since each command reads some of them and writes others.
pub fn command(
    nodes: &mut [u32],
    store: &mut [u32],
    log: &mut [u8],
    t: Totals,
    first_variable: u32,
    k: Command,
) -> Result<Totals, Refusal>
    requires { (r : Ready nodes.old store.old log.old t) × (first_variable ≡ r.head.variable) }
    ensures { (h : Head) (c : ℕ) (s : State) → first_variable ≡ h.variable
        → Standing h c nodes.old (memory store.old log.old t.at) t s
        → Played h c k s t nodes.new store.new log.new result }
{
    match k {
        Command::Leaf(literal) => leaf(nodes, t, first_variable, literal),
        Command::Join(l, r) => join(nodes, t, l, r),
        Command::Request(node, value, direction) => request(
            nodes, store, log, t, node, value, direction,
        ),
        Command::Close => close(nodes, store, log, t),
    }
}
