// The limits that the code tests, the sizes of its tables and the places in them, each named once. `specs/Sizes.antt` has them
// for contracts. Document 01 has fixed tables by node and value in the place of Vec and maps: each is one slice of numbers, rows and
// lists side by side, and the definitions of `rows` and `define` read it by place. In a row 0 is a leaf, not stored, nothing
// held. Nodes go by the numbers that a script gives them.
#![tactic(auto)]

// ---- limits

// The largest variable of a head, and the largest step.
pub const MOST_HEAD: u32 = 100000000;

// The bytes of a script, and those of a log.
pub const MOST_BYTES: usize = 65536;

pub const MOST_LEAVES: usize = 64;

pub const MOST_JOINS: usize = 255;

pub const MOST_NODES: usize = MOST_LEAVES + MOST_JOINS;

// The least bytes of a leaf's command, and of a join's.
pub const LEAF_BYTES: usize = 2;

pub const JOIN_BYTES: usize = 7;

// The nodes of the smaller tables, and the bytes of a script that makes no more.
pub const FEW_NODES: usize = 16;

pub const FEW_BYTES: usize = LEAF_BYTES * FEW_NODES;

pub const SOME_NODES: usize = 128;

pub const SOME_BYTES: usize = LEAF_BYTES * MOST_LEAVES + JOIN_BYTES * (SOME_NODES - MOST_LEAVES);

// The values of a node: no more than there are leaves.
pub const WIDTH: usize = MOST_LEAVES;

// The counters of steps and of clauses stop here. No log reaches it: a step takes two bytes at least.
pub const STEP_STOP: u32 = MOST_HEAD + MOST_BYTES as u32;

// ---- the table of the nodes: of the leaves in the order of their making the literals, then the node numbers; then a row for each
// node

// The place of the first leaf's node number.
pub const LEAF_NODES: usize = MOST_LEAVES;

// The place of the first row.
pub const NODES_START: usize = 2 * MOST_LEAVES;

pub const ROW: usize = 79;

// In a row: the length; the output of value 1; 1 for a join, 0 for a leaf; the leaves below, a bit for each, in two numbers, the
// low one first; the left side; the right side; the leaf list.
pub const LEN: usize = 0;

pub const FIRST: usize = 1;

pub const KIND: usize = 2;

pub const BELOW: usize = 3;

pub const LEFT: usize = 5;

pub const RIGHT: usize = 10;

pub const LIST: usize = 15;

// Of a side: node, offset, limit; its length; the place of its window's first steps.
pub const SIDE_LEN: usize = 3;

pub const SIDE_WINDOW: usize = 4;

pub const NODES_SIZE: usize = NODES_START + ROW * MOST_NODES;

pub const FEW_NODES_SIZE: usize = NODES_START + ROW * FEW_NODES;

pub const SOME_NODES_SIZE: usize = NODES_START + ROW * SOME_NODES;

// ---- the store: the places of the stored definitions in the order of their writing, three counters, then a row for each node

// No definition takes fewer than eight bytes of a log.
pub const TRAIL: usize = 8192;

// How many definitions are stored; the next step; how many clauses are written.
pub const MARKS: usize = TRAIL;

pub const STEP: usize = TRAIL + 1;

pub const CLAUSES: usize = TRAIL + 2;

// The place of the first row.
pub const STORE_START: usize = TRAIL + 3;

pub const STORE_ROW: usize = 134;

// In a row: the first steps of the real definitions of the values 0 to 65; of a join, those of the window of its left side (the
// sum of value 0, the rest), and of its right side; the directions held of the values 1 to 64, as a request names them.
pub const LEFT_WINDOW: usize = 66;

pub const RIGHT_WINDOW: usize = 68;

// The place before that of value 1.
pub const HELD: usize = 69;

pub const STORE_SIZE: usize = STORE_START + STORE_ROW * MOST_NODES;

pub const FEW_STORE_SIZE: usize = STORE_START + STORE_ROW * FEW_NODES;

pub const SOME_STORE_SIZE: usize = STORE_START + STORE_ROW * SOME_NODES;
