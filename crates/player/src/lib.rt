// A script read at a place, and why one is refused. `specs/Script.antt` says what its bytes are,
// `specs/Places.antt` what stands at a place, `specs/Refusals.antt` which number a refusal has. Script and place
// are two values: each reading is an equation with a definition of both.
#![tactic(auto)]

ghost use Rattle.std.specs.Prelude.{◌≡◌, ◌≤◌, length};
ghost use Rattle.player.specs.Refusals.{number_of, numbered};
ghost use Rattle.player.specs.Places.{triple_at, side_at, leaf_at, join_at, request_at, arguments_at, followed, next_at, head_at};

use cert::Head;
use totdb::Side;

// Why a script is refused: at each, the first question that was answered no.
#[derive(Clone, Copy)]
pub enum Refusal {
    // the script or the log is too long
    TooLong,
    // no number reads here
    NoNumber,
    // the head's variable or step is out of range
    Head,
    // a command after a close
    Closed,
    // no command has this code
    NoCommand,
    // the leaf's variable is not below the first output variable
    LeafVariable,
    // the leaf's negation is a leaf, or there are as many leaves as there may be
    Leaf,
    NoNode,
    // a leaf lies below both sides of the join
    SharedLeaf,
    // the window is not within the node
    Window,
    // the node has no such value
    Value,
    Direction,
    // what the command writes does not fit in the log
    LogFull,
    // there are as many joins as there may be
    TooManyJoins,
}

impl Refusal {
    // The question's number, as an answer has it. 13 is not used. A match, so that each number stands beside its name.
    pub fn number(self) -> u32
        ensures { result ≡ number_of self }
    {
        match self {
            Refusal::TooLong => 1,
            Refusal::NoNumber => 2,
            Refusal::Head => 3,
            Refusal::Closed => 4,
            Refusal::NoCommand => 5,
            Refusal::LeafVariable => 6,
            Refusal::Leaf => 7,
            Refusal::NoNode => 8,
            Refusal::SharedLeaf => 9,
            Refusal::Window => 10,
            Refusal::Value => 11,
            Refusal::Direction => 12,
            Refusal::LogFull => 14,
            Refusal::TooManyJoins => 15,
        }
    }
}

// A leaf with its literal; a join of two sides; a request of a node's value in a direction (1 if, 2 only-if, 3 both); a close. The
// direction stays a number here: question 12 asks of it after 8 and 11.
#[derive(Clone, Copy)]
pub enum Command {
    Leaf(u32),
    Join(Side, Side),
    Request(usize, usize, u32),
    Close,
}

// Three numbers in a row, with the place after them. Inlined, it makes a play of many requests take a quarter fewer instructions.
#[inline]
fn triple(script: &[u8], at: usize) -> Option<((u32, u32, u32), usize)>
    ensures { result ≡ triple_at script.now at }
{
    let (a, after_a) = number::read(script, at)?;
    let (b, after_b) = number::read(script, after_a)?;
    let (c, end) = number::read(script, after_b)?;
    Some(((a, b, c), end))
}

fn side(script: &[u8], at: usize) -> Option<(Side, usize)>
    ensures { result ≡ side_at script.now at }
{
    let ((node, offset, limit), end) = triple(script, at)?;
    // `as`, since `usize` has no `From<u32>`
    let s = Side {
        node: node as usize,
        offset: offset as usize,
        limit: limit as usize,
    };
    Some((s, end))
}

fn leaf(script: &[u8], at: usize) -> Option<(Command, usize)>
    ensures { result ≡ leaf_at script.now at }
{
    let (literal, end) = number::read(script, at)?;
    Some((Command::Leaf(literal), end))
}

fn join(script: &[u8], at: usize) -> Option<(Command, usize)>
    ensures { result ≡ join_at script.now at }
{
    let (l, middle) = side(script, at)?;
    let (r, end) = side(script, middle)?;
    Some((Command::Join(l, r), end))
}

fn request(script: &[u8], at: usize) -> Option<(Command, usize)>
    ensures { result ≡ request_at script.now at }
{
    let ((node, value, direction), end) = triple(script, at)?;
    Some((
        Command::Request(node as usize, value as usize, direction),
        end,
    ))
}

// The command of a code, whose numbers follow the code, with the place after them. Nothing else reads these codes.
fn arguments(script: &[u8], at: usize, code: u32) -> Result<(Command, usize), Refusal>
    requires { at ≤ length script.now }
    ensures { followed (numbered result) ≡ arguments_at code script.now at }
{
    match code {
        1 => leaf(script, at).ok_or(Refusal::NoNumber),
        2 => join(script, at).ok_or(Refusal::NoNumber),
        3 => request(script, at).ok_or(Refusal::NoNumber),
        4 => Ok((Command::Close, at)),
        _ => Err(Refusal::NoCommand),
    }
}

// The command at `at`, which may lie past the end, with the place after it: questions 2, 4 and 5.
// None: the script ends here, where a code would stand.
pub fn next(script: &[u8], at: usize, closed: bool) -> Result<Option<(Command, usize)>, Refusal>
    ensures { numbered result ≡ next_at closed script.now at }
{
    if script.len() <= at {
        return Ok(None);
    }
    let (code, end) = number::read(script, at).ok_or(Refusal::NoNumber)?;
    if closed {
        return Err(Refusal::Closed);
    }
    Ok(Some(arguments(script, end, code)?))
}

// The head, which stands at the front, with the place after it.
pub fn head(script: &[u8]) -> Option<(Head, usize)>
    ensures { result ≡ head_at script.now }
{
    let (variable, middle) = number::read(script, 0)?;
    let (step, end) = number::read(script, middle)?;
    Some((Head { variable, step }, end))
}
