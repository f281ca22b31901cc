//! How the values of a tree are made from those of its leaves.

ghost use Rattle.std.specs.Prelude.{◌≡◌, ℕ, ◌+◌, ◌*◌, ◌<◌, ◌≤◌, ◌^◌, length, slice_index};
ghost use Rattle.l6_places.specs.Numerals.{largest_top};
ghost use Rattle.l6_places.specs.inner.Tree.{joined, leaf_between, IsBuilt};

/// The value of a node of a level whose two halves have these values.
pub(crate) fn join(level: u8, lower: u8, upper: u8) -> u8
    requires { level < 255 }
    ensures { result ≡ joined level lower upper }
{
    if lower == level && upper == level {
        level + 1
    } else {
        lower.max(upper)
    }
}

/// Gives the leaves their values: 1 to those from the first place up to the end.
pub(crate) fn fill(nodes: &mut Vec<u8>, leaves: usize, first: u32, end: u32)
    requires long { length nodes.old.items ≡ 2 * leaves }
    ensures long { length nodes.new.items ≡ 2 * leaves }
    ensures filled { (place : ℕ) → place < leaves
        → slice_index nodes.new.items (leaves + place) ≡ leaf_between first end place }
{
    for place in 0..leaves {
        nodes[leaves + place] = leaf(first, end, place);
    }
}

/// The value of a leaf.
fn leaf(first: u32, end: u32, place: usize) -> u8
    ensures { result ≡ leaf_between first end place }
{
    if first as usize <= place && place < end as usize {
        1
    } else {
        0
    }
}

/// Gives the nodes above the leaves their values, from the last to the first.
pub(crate) fn build(nodes: &mut Vec<u8>, top: u8)
    requires top { top ≤ largest_top }
    requires long { length nodes.old.items ≡ 2 * 2 ^ top }
    ensures built { IsBuilt top nodes.old.items nodes.new.items }
{
    let mut node: usize = 1 << top;
    let mut level = 0;
    while 1 < node {
        if node == 1 << (top - level) {
            level += 1;
        }
        node -= 1;
        let lower = nodes[2 * node];
        let upper = nodes[2 * node + 1];
        nodes[node] = join(level, lower, upper);
    }
}
