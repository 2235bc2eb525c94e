//! Where a reader stands in a graph.

/// What stands before the next token.
#[derive(Clone, Copy)]
pub(crate) enum Place {
    /// Nothing.
    Start,
    /// `strict`
    Strict,
    /// `graph` or `digraph`
    Title,
    /// The graph's name.
    Titled,
    /// A brace, or a semicolon: a statement may begin.
    Statement,
    /// A statement.
    Done,
    /// A subgraph.
    Closed,
    /// `subgraph`
    Subgraph,
    /// The subgraph's name.
    SubgraphTitled,
    /// A node's name.
    Node,
    /// The colon before a port.
    Port,
    /// A node's port.
    Ported,
    /// The colon before the side of a node.
    Side,
    /// The side of a node.
    Sided,
    /// `--` or `->`
    EdgeEnd,
    /// A name, and `=` is next.
    Key,
    /// A name and `=`.
    Setting,
    /// `graph`, `node` or `edge` at the beginning of a statement.
    Brackets,
    /// An opening bracket, or what parts attributes.
    List,
    /// An attribute's name.
    ListKey,
    /// An attribute's name and `=`.
    Value,
    /// An attribute.
    Valued,
    /// A closing bracket.
    Listed,
    /// The graph's closing brace.
    Over,
    /// The whole text.
    Finish,
}

/// Whose attributes stand in brackets.
#[derive(Clone, Copy)]
pub(crate) enum Owner {
    /// A node's.
    Node,
    /// An edge's.
    Edge,
    /// Those of all edges that follow.
    EdgeDefault,
    /// Those of all nodes that follow, or of the graph.
    Other,
}

/// What a token does.
#[derive(Clone, Copy)]
pub(crate) enum Act {
    /// Nothing.
    Pass,
    /// It names the first node of a statement.
    Begin,
    /// It names the next node of a chain.
    More,
    /// It says the weight of a statement's edges.
    Weigh,
}

/// Where a reader stands in a graph.
#[derive(Clone, Copy)]
pub(crate) struct State {
    /// What stands before the next token.
    pub(crate) place: Place,
    /// How many subgraphs are open.
    pub(crate) depth: u32,
    /// Whether the graph is directed.
    pub(crate) directed: bool,
    /// Whose attributes come next.
    pub(crate) owner: Owner,
    /// Whether the attribute that is read is the weight.
    pub(crate) weighs: bool,
}
