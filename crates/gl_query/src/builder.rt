// The tree of a query, while its tokens are read.
ghost use Rattle.std.specs.Prelude.{◌≡◌, ◌==◌, ◌+◌, ◌<◌, ◌≤◌, List, [], ◌++◌, ◌∷◌, vec_len, Bool, if◌then◌else◌, true, OnOk, IfOk};
ghost use Rattle.std.specs.List.{insert};
ghost use Rattle.gl_query.specs.declared.term.Node.{Node};
ghost use Rattle.gl_query.specs.Tree.{Tree, leaf, polish};
ghost use Rattle.gl_query.specs.Refusals.{may_end};
ghost use Rattle.gl_query.specs.QueryReading.{ended};
ghost use Rattle.gl_query.specs.Ending.{Ends};
ghost use Rattle.gl_query.specs.Building.{Layer, Building, HasLayers, StandsFor, IsFit, IsWhole, Closed, Grew, begun, empty, is_operator, split, parted, with_operand, whole, one_negation, grown};

use crate::step::{Step, Want};
use crate::term::{Node, Term};
use std::alloc::{AllocError, Global};

// How many NOT and parentheses may be open.
const MAX_NESTING: usize = 64;

/// What stands inside one pair of parentheses so far.
#[derive(Clone, Copy)]
pub struct Level {
    /// How many NOT stand before the next operand.
    negations: usize,
    /// Where its nodes begin.
    start: usize,
    alternatives: usize,
    /// Where the nodes of the next alternative begin.
    factors_at: usize,
    factors: usize,
}

/// The nodes so far in Polish notation.
#[derive(Drop)]
pub struct Builder {
    level: Level,
    outer: Vec<Level>,
    depth: usize,
    nodes: Vec<Node>,
}

pub(crate) fn is_operator(want: &Want) -> bool
    ensures { result ≡ is_operator want.now }
{
    match want {
        Want::Operator => true,
        Want::Start => false,
        Want::Operand => false,
        Want::Content(_) => false,
        Want::Name => false,
        Want::Number(_, _) => false,
        Want::Low(_, _) => false,
        Want::Range(_, _) => false,
        Want::High(_, _) => false,
        Want::End(_, _, _) => false,
    }
}

// A count that passes its type is of more nodes than memory has.
fn one_more(count: usize) -> Result<usize, AllocError>
    ensures { IfOk result (λ n. n ≡ count + 1) }
{
    match count.checked_add(1) {
        Some(next) => Ok(next),
        None => Err(AllocError),
    }
}

// Puts an operation before its members, if there isn't just one.
fn group(nodes: &mut Vec<Node>, at: usize, count: usize, operation: Node) -> Result<(), AllocError>
    requires { at ≤ vec_len nodes.old }
    ensures { OnOk result (nodes.new.items ≡ (if count == 1 then nodes.old.items else insert nodes.old.items at operation)) }
{
    if count == 1 {
        return Ok(());
    }
    nodes.insert(at, operation)?;
    Ok(())
}

impl Builder {
    pub(crate) fn new(alloc: Global) -> Builder
        ensures { StandsFor result begun }
    {
        Builder {
            level: Level {
                negations: 0,
                start: 0,
                alternatives: 0,
                factors_at: 0,
                factors: 0,
            },
            outer: Vec::new(alloc),
            depth: 0,
            nodes: Vec::new(alloc),
        }
    }

    // An alternative has ended.
    fn split(&mut self) -> Result<(), AllocError>
        requires { (here : Layer) × (outer : List Layer) × HasLayers self.old here outer [] × (here.negations ≡ 0) }
        ensures { (here : Layer) (outer : List Layer) → HasLayers self.old here outer [] → here.negations ≡ 0
            → OnOk result (HasLayers self.new (split here) outer []) }
    {
        let alternatives = one_more(self.level.alternatives)?;
        let factors = self.level.factors;
        group(
            &mut self.nodes,
            self.level.factors_at,
            factors,
            Node::Both(factors),
        )?;
        self.level = Level {
            negations: self.level.negations,
            start: self.level.start,
            alternatives,
            factors_at: self.nodes.len(),
            factors: 0,
        };
        Ok(())
    }

    // An operand begins.
    fn part(&mut self, behind: bool) -> Result<(), AllocError>
        requires { (here : Layer) × (outer : List Layer) × HasLayers self.old here outer [] × (behind ≡ true → here.negations ≡ 0) }
        ensures { (here : Layer) (outer : List Layer) → HasLayers self.old here outer [] → (behind ≡ true → here.negations ≡ 0)
            → OnOk result (HasLayers self.new (parted behind here) outer []) }
    {
        if behind {
            return self.split();
        }
        Ok(())
    }

    // An operand has ended, whose nodes stand at the end.
    fn complete(&mut self) -> Result<(), AllocError>
        requires { (here : Layer) × (outer : List Layer) × (t : Tree) × HasLayers self.old here outer (polish t) }
        ensures { (here : Layer) (outer : List Layer) (t : Tree) → HasLayers self.old here outer (polish t)
            → OnOk result (HasLayers self.new (with_operand t here) outer []) }
    {
        let level = self.level;
        let factors = one_more(level.factors)?;
        self.depth -= level.negations;
        self.level = Level {
            negations: 0,
            start: level.start,
            alternatives: level.alternatives,
            factors_at: level.factors_at,
            factors,
        };
        Ok(())
    }

    fn add_leaf(&mut self, term: Term) -> Result<(), AllocError>
        requires { (here : Layer) × (outer : List Layer) × HasLayers self.old here outer [] }
        ensures { (here : Layer) (outer : List Layer) → HasLayers self.old here outer []
            → OnOk result (HasLayers self.new (with_operand (leaf term) here) outer []) }
    {
        self.nodes.push(Node::Leaf(term))?;
        self.complete()
    }

    fn negate(&mut self) -> Result<(), AllocError>
        requires { (here : Layer) × (outer : List Layer) × HasLayers self.old here outer [] × (self.old.depth < 64) }
        ensures { (here : Layer) (outer : List Layer) → HasLayers self.old here outer []
            → OnOk result (HasLayers self.new (one_negation here) outer []) }
    {
        self.nodes.push(Node::Negation)?;
        let level = self.level;
        self.depth += 1;
        self.level = Level {
            negations: level.negations + 1,
            start: level.start,
            alternatives: level.alternatives,
            factors_at: level.factors_at,
            factors: level.factors,
        };
        Ok(())
    }

    fn open(&mut self) -> Result<(), AllocError>
        requires { self.old.depth < 64 }
        ensures { (here : Layer) (outer : List Layer) → HasLayers self.old here outer []
            → OnOk result (HasLayers self.new empty (here ∷ outer) []) }
    {
        let level = self.level;
        self.outer.push(level)?;
        let start = self.nodes.len();
        self.depth += 1;
        self.level = Level {
            negations: 0,
            start,
            alternatives: 0,
            factors_at: start,
            factors: 0,
        };
        Ok(())
    }

    // What stands inside the parentheses has ended.
    fn close_layer(&mut self) -> Result<(), AllocError>
        requires { (here : Layer) × (outer : List Layer) × HasLayers self.old here outer [] × (here.negations ≡ 0) }
        ensures { (here : Layer) (outer : List Layer) → HasLayers self.old here outer [] → here.negations ≡ 0
            → OnOk result (IsWhole self.old self.new here outer) }
    {
        self.split()?;
        let alternatives = self.level.alternatives;
        group(
            &mut self.nodes,
            self.level.start,
            alternatives,
            Node::Either(alternatives),
        )
    }

    // A parenthesis ends; there is none where none is open.
    fn close(&mut self) -> Result<bool, AllocError>
        requires { (here : Layer) × (outer : List Layer) × HasLayers self.old here outer [] × (here.negations ≡ 0) }
        ensures { (here : Layer) (outer : List Layer) → HasLayers self.old here outer [] → here.negations ≡ 0
            → IfOk result (λ closes. Closed self.new closes (whole here) outer) }
    {
        self.close_layer()?;
        match self.outer.pop() {
            None => Ok(false),
            Some(level) => {
                self.level = level;
                self.depth -= 1;
                self.complete()?;
                Ok(true)
            }
        }
    }

    /// Takes what a token does, and answers what is wanted next, if it may stand here.
    pub(crate) fn take(&mut self, behind: bool, step: Step) -> Result<Option<Want>, AllocError>
        requires { (b : Building) × StandsFor self.old b × (is_operator b.want ≡ behind) × IsFit behind step }
        ensures { (b : Building) → StandsFor self.old b → is_operator b.want ≡ behind → IsFit behind step
            → IfOk result (λ next. Grew self.new next (grown step b)) }
    {
        match step {
            Step::Refused => Ok(None),
            Step::Takes(want) => {
                self.part(behind)?;
                Ok(Some(want))
            }
            Step::Completes(term) => {
                self.part(behind)?;
                self.add_leaf(term)?;
                Ok(Some(Want::Operator))
            }
            Step::Negates => {
                if self.depth >= MAX_NESTING {
                    return Ok(None);
                }
                self.part(behind)?;
                self.negate()?;
                Ok(Some(Want::Operand))
            }
            Step::Opens => {
                if self.depth >= MAX_NESTING {
                    return Ok(None);
                }
                self.part(behind)?;
                self.open()?;
                Ok(Some(Want::Operand))
            }
            Step::Closes => {
                if self.close()? {
                    return Ok(Some(Want::Operator));
                }
                Ok(None)
            }
            Step::Joins => Ok(Some(Want::Operand)),
            Step::Splits => {
                self.split()?;
                Ok(Some(Want::Operand))
            }
        }
    }

    // The nodes of the whole; there are none where a query can't end.
    fn whole_nodes(mut self, want: &Want) -> Result<Option<Vec<Node>>, AllocError>
        requires { (b : Building) × StandsFor self b × (b.want ≡ want.now) }
        ensures { (b : Building) → StandsFor self b → b.want ≡ want.now → b.outer ≡ []
            → IfOk result (λ nodes. Ends nodes (ended b)) }
    {
        match want {
            Want::Start => {
                let mut nodes = Vec::new(*self.nodes.allocator());
                nodes.push(Node::Leaf(Term::All))?;
                Ok(Some(nodes))
            }
            Want::Operator => {
                self.close_layer()?;
                let Builder { nodes, .. } = self;
                Ok(Some(nodes))
            }
            Want::Operand => Ok(None),
            Want::Content(_) => Ok(None),
            Want::Name => Ok(None),
            Want::Number(_, _) => Ok(None),
            Want::Low(_, _) => Ok(None),
            Want::Range(_, _) => Ok(None),
            Want::High(_, _) => Ok(None),
            Want::End(_, _, _) => Ok(None),
        }
    }

    /// The nodes of the whole; there are none where a query can't end.
    pub(crate) fn finish(self, want: &Want) -> Result<Option<Vec<Node>>, AllocError>
        requires { (b : Building) × StandsFor self b × (b.want ≡ want.now) }
        ensures { (b : Building) → StandsFor self b → b.want ≡ want.now → IfOk result (λ nodes. Ends nodes (ended b)) }
    {
        if !self.outer.is_empty() {
            return Ok(None);
        }
        self.whole_nodes(want)
    }
}
