ghost use Rattle.std.specs.Prelude.{◌≡◌};
ghost use Rattle.gl_query.specs.Tree.{Tree, polish};
ghost use Rattle.gl_query.specs.QueryReading.{IsRead};
ghost use Rattle.gl_query.specs.Required.{AreRequired, required, terms_of};

use crate::required::RequiredTerm;
use crate::term::Node;
use std::alloc::AllocError;
use std::marker::Model;

/// A query, which `read_query` alone makes. It is seen as the nodes of its tree in Polish notation.
#[derive(Drop)]
pub struct Query {
    nodes: Vec<Node>,
    required: Vec<RequiredTerm>,
}

impl Model for Query {
    ghost use Rattle.std.specs.Prelude.{List};
    ghost use Rattle.gl_query.specs.declared.term.Node.{Node};

    ghost Value = { List Node };

    ghost view = { λ q. q.nodes.items };

    ghost use Rattle.gl_query.specs.QueryReading.{IsRead};
    ghost use Rattle.gl_query.specs.Required.{AreRequired};

    ghost invariant = { λ q. IsRead q.nodes.items × AreRequired q.required.items q.nodes.items };
}

/// Why a text isn't read.
#[derive(Clone, Copy, Debug, PartialEq, Eq)]
pub enum QueryRefusal {
    /// In bytes from the start of the text: the first token that no query goes on with, or the end.
    BadQuery { at: u64 },
    OutOfMemory,
}

impl From<AllocError> for QueryRefusal {
    ghost use Rattle.gl_query.specs.declared.query.QueryRefusal.TheVariants.{OutOfMemory};

    ghost from_gives = { λ _ e. e ≡ OutOfMemory };

    fn from(_: AllocError) -> Self {
        QueryRefusal::OutOfMemory
    }
}

impl Query {
    pub(crate) fn from_nodes(nodes: Vec<Node>, required: Vec<RequiredTerm>) -> Query
        requires read { IsRead nodes.items }
        requires required { AreRequired required.items nodes.items }
        ensures { result ≡ nodes.items }
    {
        Query { nodes, required }
    }

    /// The terms that a message must have for the query to hold of it, in the order of the query. It
    /// takes no memory.
    pub fn required(&self) -> &[RequiredTerm]
        ensures { (t : Tree) → self.now ≡ polish t → terms_of result.now ≡ required t }
    {
        self.required.as_slice()
    }

    /// The nodes of its tree in Polish notation.
    pub fn as_slice(&self) -> &[Node]
        ensures nodes { result.now ≡ self.now }
        ensures lawful { IsRead self.now }
    {
        self.nodes.as_slice()
    }
}
