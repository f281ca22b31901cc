//! The groups of variables that a state has.

ghost use Rattle.std.specs.Prelude.{◌≡◌, ◌∷◌, ◌++◌, [], length, map, IfOk};
ghost use Rattle.serde_json.specs.View.{view};
ghost use Rattle.l6_dap.specs.Scopes as spec;
ghost use Rattle.l6_dap.specs.declared.scopes.Group.{Group as AGroup};

use crate::nodes::{Node, Nodes};
use l6_machine::{Depths, Machine};
use l6_rpc::OutOfMemory;
use l6_store::Buddy;
use serde_json::{Value, json};
use std::alloc::{AllocError, Global};

/// A group of variables.
#[derive(Drop)]
struct Group {
    name: &'static str,
    node: Node,
}

/// The groups of variables that a state has. Each is added to the nodes.
pub(crate) fn scopes(
    alloc: Global,
    nodes: &mut Nodes,
    machine: &Machine<Buddy>,
) -> Result<Value, OutOfMemory>
    ensures value { IfOk result (λ it. view it ≡ spec.scopes_body (spec.scopes_from (length nodes.old)
        (spec.groups_of machine.now.configuration.state.memory))) }
    ensures nodes { IfOk result (λ it. nodes.new ≡ nodes.old
        ++ spec.nodes_in (spec.groups_of machine.now.configuration.state.memory)) }
{
    let Depths {
        contents,
        definitions,
        ..
    } = machine.depths();
    let groups = groups(alloc, contents, definitions)?;
    let mut list = Vec::new(alloc);
    for group in groups {
        let reference = nodes.add(group.node)?;
        list.push(scope(alloc, group.name, reference)?)?;
    }
    Ok(scopes_body(alloc, list)?)
}

/// The groups, where so many contents and definitions are saved.
fn groups(alloc: Global, contents: usize, definitions: usize) -> Result<Vec<Group>, AllocError>
    ensures { IfOk result (λ it. map (λ (group : AGroup). (group.name.now, group.node)) it.items
        ≡ spec.groups contents definitions) }
{
    let mut list = Vec::new(alloc);
    push(&mut list, "Bugs", Node::Bugs)?;
    push(&mut list, "Fields", Node::Fields)?;
    push(&mut list, "Blocks", Node::Blocks)?;
    if contents > 0 {
        push(&mut list, "Saved contents", Node::Contents)?;
    }
    if definitions > 0 {
        push(&mut list, "Saved definitions", Node::Definitions)?;
    }
    Ok(list)
}

/// Adds a group.
fn push(list: &mut Vec<Group>, name: &'static str, node: Node) -> Result<(), AllocError>
    ensures { IfOk result (λ it. list.new.items ≡ list.old.items ++ record { name = name.entry; node = node } ∷ []) }
{
    list.push(Group { name, node })?;
    Ok(())
}

/// What is said of a group.
fn scope(alloc: Global, name: &str, reference: u64) -> Result<Value, AllocError>
    ensures { IfOk result (λ it. view it ≡ spec.scope name.now reference) }
{
    json!(in alloc; {"name": name, "variablesReference": reference, "expensive": false})
}

/// What is answered, where this is said of the groups.
fn scopes_body(alloc: Global, list: Vec<Value>) -> Result<Value, AllocError>
    ensures { IfOk result (λ it. view it ≡ spec.scopes_body (map (λ scope. view scope) list.items)) }
{
    let scopes = Value::Array(list);
    json!(in alloc; {"scopes": scopes})
}
