// The nodes in cyclic order, and the search for the first after a node, itself excluded, that passes a test.
ghost use Rattle.std.specs.Prelude.{◌≡◌, ◌<◌, ℕ, Bool};
ghost use Rattle.counting.specs.Cyclic.{next_node, cursor_after, cursor_step, first_after};

// Where a search has come to: a node, and how many nodes are still to be tried, this one among them.
#[derive(Clone, Copy)]
pub struct Cursor {
    pub node: u8,
    pub untried: u8,
}

// The next node, cyclically: a comparison in the place of a remainder. From a number that is no node's it is node 0.
pub fn next_node(nodes: u8, node: u8) -> u8
    ensures { result ≡ next_node nodes node }
{
    let next = node as u16 + 1;
    if nodes as u16 <= next {
        return 0;
    }
    next as u8
}

// The start of a search: all other nodes are to be tried, the next one first; after a number that is no node's, none.
pub fn after(nodes: u8, node: u8) -> Cursor
    ensures { result ≡ cursor_after nodes node }
{
    if nodes <= node {
        return Cursor { node, untried: 0 };
    }
    Cursor {
        node: next_node(nodes, node),
        untried: nodes - 1,
    }
}

// The search one node on; with none to be tried there is none after it.
pub fn step(nodes: u8, cursor: Cursor) -> Cursor
    ensures { result ≡ cursor_step nodes cursor }
{
    let node = next_node(nodes, cursor.node);
    let untried = cursor.untried;
    if untried == 0 {
        return Cursor { node, untried };
    }
    Cursor {
        node,
        untried: untried - 1,
    }
}

// The first node after `node`, cyclically, that passes the test; `node` itself if none does, or if it is no node.
pub fn first_after<F: Fn(u8) -> bool>(nodes: u8, node: u8, passes: F) -> u8
    requires { (k : ℕ) → k < nodes → F.pre passes k }
    ensures { (test : ℕ → Bool) → ((k : ℕ) (r : Bool) → k < nodes → F.post passes k r → r ≡ test k) → result ≡ first_after test nodes node }
{
    let mut cursor = after(nodes, node);
    while 0 < cursor.untried {
        if passes(cursor.node) {
            return cursor.node;
        }
        cursor = step(nodes, cursor);
    }
    node
}
