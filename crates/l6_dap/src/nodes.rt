//! What has variables, by the numbers that an editor asks for them with.

ghost use Rattle.std.specs.Prelude.{◌≡◌, ◌∷◌, ◌++◌, [], length, IfOk};
ghost use Rattle.std.specs.Option.{option_map};
ghost use Rattle.l6_dap.specs.Values.{node_of};

use l6_prog::Chain;
use l6_word::Word;
use std::alloc::{AllocError, Global};
use std::marker::Model;

/// What has variables.
#[derive(Drop)]
pub(crate) enum Node {
    /// The bugs.
    Bugs,
    /// The fields that are defined.
    Fields,
    /// The blocks that are reached.
    Blocks,
    /// The saved contents.
    Contents,
    /// The saved definitions.
    Definitions,
    /// The block at a place, and a chain that leads there, if one is known.
    Block(Word, Option<Chain>),
}

/// The nodes of the state that is shown: the first one has the number 1. They hold until the run moves.
#[derive(Drop)]
pub(crate) struct Nodes {
    list: Vec<Node>,
}

impl Model for Nodes {
    ghost use Rattle.std.specs.Prelude.{List};
    ghost use Rattle.l6_dap.specs.declared.nodes.Node as declared;

    ghost Value = { List declared.Node };

    ghost view = { λ nodes. nodes.list.items };
}

impl Nodes {
    /// No node.
    pub(crate) fn new(alloc: Global) -> Self
        ensures { result ≡ [] }
    {
        Nodes {
            list: Vec::new(alloc),
        }
    }

    /// Forgets all nodes, since the run has moved.
    pub(crate) fn clear(&mut self)
        ensures { self.new ≡ [] }
    {
        self.list.clear();
    }

    /// Adds a node; answers its number.
    pub(crate) fn add(&mut self, node: Node) -> Result<u64, AllocError>
        ensures added { IfOk result (λ it. self.new ≡ self.old ++ node ∷ []) }
        ensures number { IfOk result (λ it. it ≡ length self.new) }
    {
        self.list.push(node)?;
        Ok(self.list.len() as u64)
    }

    /// The node of a number.
    pub(crate) fn get(&self, number: u64) -> Option<&Node>
        ensures { option_map (λ it. it.now) result ≡ node_of self.now number }
    {
        let index = usize::try_from(number.checked_sub(1)?).ok()?;
        self.list.as_slice().get(index)
    }
}
