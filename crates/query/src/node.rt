// A packed node: its fields, its word, and tests of its terms. A node is a 32-bit number whose first 3 bits are its kind; its fields follow, most significant
// first. Only this module knows where they stand: everybody else reads a node by `of`, or by `fields` where its kind is known, and writes one by the functions of
// its kind. Those that write ask for numbers that have room in their fields, as the numbers of a form's nodes and a query's variables have.
ghost use Rattle.std.specs.Prelude.{◌≡◌, ◌<◌, [], ◌∷◌, get_or, take};
ghost use Rattle.calculus.specs.Sets.{any_of};
ghost use Rattle.query.specs.Nodes.{record_word, equality_word, not_word, join_word, exists_word};
ghost use Rattle.query.specs.Reading.{max_nodes};
ghost use Rattle.query.specs.Code.Fields.{NodeOf, IsNode, kind_of, rest_of, itself};

// The words of the truth values.
pub const FALSE: u32 = 0;

pub const TRUE: u32 = 268435456;

// The fields of a node: `truth` is its truth bit, `count` and `terms` are a record's, `term` is an equality's. A node has those of its kind; the others are what
// stands at their bits.
#[derive(Clone, Copy, Debug, PartialEq, Eq)]
pub struct Parts {
    pub kind: u32,
    pub truth: u32,
    pub relation: u32,
    pub count: u32,
    pub terms: [u32; 4],
    pub variable: u32,
    pub term: u32,
    pub left: usize,
    pub right: usize,
    pub under: usize,
}

// The two kinds of nodes over two others.
#[derive(Clone, Copy, Debug, PartialEq, Eq)]
pub enum Connective {
    And,
    Or,
}

// The fields of a record.
#[derive(Clone, Copy, Debug, PartialEq, Eq)]
pub struct Atom {
    pub relation: u32,
    pub count: u32,
    pub terms: [u32; 4],
}

// A node by its kind: an equality has its variable and its term, a not its child, a join its children, an exists its variable and its child.
#[derive(Clone, Copy, Debug, PartialEq, Eq)]
pub enum Node {
    Truth(bool),
    Record(Atom),
    Equality(u32, u32),
    Not(usize),
    Join(Connective, usize, usize),
    Exists(u32, usize),
    Unknown,
}

// The node of a word, taken apart.
pub fn of(w: u32) -> Node
    ensures { IsNode w result }
{
    let f = fields(w);
    let terms = f.terms;
    match f.kind {
        0 => Node::Truth(f.truth == 1),
        1 => Node::Record(Atom {
            relation: f.relation,
            count: f.count,
            terms,
        }),
        2 => Node::Equality(f.variable, f.term),
        3 => Node::Not(f.left),
        4 => Node::Join(Connective::And, f.left, f.right),
        5 => Node::Join(Connective::Or, f.left, f.right),
        6 => Node::Exists(f.variable, f.under),
        _ => Node::Unknown,
    }
}

// All fields of a node, whatever its kind: for those that know the kind.
// Stays: where the kind is known, a match on `of` would have arms that can't come, and be no plainer.
pub fn fields(w: u32) -> Parts
    ensures { NodeOf w result }
{
    Parts {
        kind: w / 536870912,
        truth: w / 268435456 % 2,
        relation: w / 33554432 % 16,
        count: w / 4194304 % 8,
        terms: [w / 131072 % 32, w / 4096 % 32, w / 128 % 32, w / 4 % 32],
        variable: w / 33554432 % 16,
        term: w / 1048576 % 32,
        left: (w / 8388608 % 64) as usize,
        right: (w / 131072 % 64) as usize,
        under: (w / 524288 % 64) as usize,
    }
}

// The bits past the fields of a node's kind; none where there is no such kind.
pub fn rest(w: u32) -> u32
    ensures { result ≡ rest_of w }
{
    match of(w) {
        Node::Truth(_) => w % 268435456,
        Node::Record(_) => w % 4,
        Node::Equality(..) => w % 1048576,
        Node::Not(_) => w % 8388608,
        Node::Join(..) => w % 131072,
        Node::Exists(..) => w % 524288,
        Node::Unknown => 0,
    }
}

// A record of the first `count` terms. Past them the caller hands over zeros: the reader refuses others (cause 6).
pub fn membership(relation: u32, count: u32, terms: [u32; 4]) -> u32
    requires { (relation < 16) × (count < 8) × (get_or terms 0 0 < 32) × (get_or terms 1 0 < 32) × (get_or terms 2 0 < 32) × (get_or terms 3 0 < 32) }
    ensures { result ≡ record_word relation count (get_or terms 0 0) (get_or terms 1 0) (get_or terms 2 0) (get_or terms 3 0) }
{
    536870912
        + relation * 33554432
        + count * 4194304
        + (terms[0] * 131072 + terms[1] * 4096 + terms[2] * 128 + terms[3] * 4)
}

// An equality of a variable and a term.
pub fn equality(variable: u32, term: u32) -> u32
    requires { (variable < 16) × (term < 32) }
    ensures { result ≡ equality_word variable term }
{
    2 * 536870912 + variable * 33554432 + term * 1048576
}

// A not over a node.
pub fn negation(child: usize) -> u32
    requires { child < max_nodes }
    ensures { result ≡ not_word child }
{
    3 * 536870912 + child as u32 * 8388608
}

// An and or an or over two nodes.
pub fn junction(kind: Connective, left: usize, right: usize) -> u32
    requires { (left < max_nodes) × (right < max_nodes) }
    ensures { result ≡ join_word (kind_of kind) left right }
{
    let code: u32 = match kind {
        Connective::And => 4,
        Connective::Or => 5,
    };
    code * 536870912 + left as u32 * 8388608 + right as u32 * 131072
}

// An exists over a node.
pub fn existence(variable: u32, child: usize) -> u32
    requires { (variable < 16) × (child < max_nodes) }
    ensures { result ≡ exists_word variable child }
{
    6 * 536870912 + variable * 33554432 + child as u32 * 524288
}

// Whether one of the first count of four tests is true.
// Stays: a public function, with its promise. Four tests by value need no closure.
pub fn some_of(count: u32, a: bool, b: bool, c: bool, d: bool) -> bool
    ensures { result ≡ any_of itself (take count (a ∷ b ∷ c ∷ d ∷ [])) }
{
    [a, b, c, d].iter().take(count as usize).any(|test| *test)
}
