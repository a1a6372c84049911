// The nodes of a tree: node 1 is the root, the children of j are 2 j and 2 j + 1, the last half are the leaves.
ghost use Rattle.std.specs.Prelude.{◌≡◌, ℕ, ◌+◌, ◌<◌, ◌≤◌, length, map, slice_index_or, slice_set, vec_capacity, None};
ghost use Rattle.tk_rank.specs.Tree.{greater_under, greatest_leaf, leaves_of, HasNodes, IsTree};

use crate::node::Node;

/// Writes a tree of empty leaves, at least so many, in the place of what was there.
pub(crate) fn empty<N: Node>(nodes: &mut Vec<N>, leaves: usize)
    requires few { leaves ≤ 65536 }
    requires room { HasNodes leaves (vec_capacity nodes.old) }
    ensures tree { IsTree (map N.number nodes.new.items) }
    ensures enough { leaves ≤ length (leaves_of (map N.number nodes.new.items)) }
    ensures empty { (i : ℕ) → slice_index_or (leaves_of (map N.number nodes.new.items)) i None ≡ None }
    ensures room { vec_capacity nodes.new ≡ vec_capacity nodes.old }
{
    let width = leaves.next_power_of_two();
    nodes.clear();
    for _ in 0..2 * width {
        nodes.push_reserved(N::none());
    }
}

/// The number at a place from 0 among the leaves.
pub(crate) fn leaf<N: Node>(nodes: &[N], place: usize) -> N
    requires tree { IsTree (map N.number nodes.now) }
    requires within { place < length (leaves_of (map N.number nodes.now)) }
    ensures { N.number result ≡ slice_index_or (leaves_of (map N.number nodes.now)) place None }
{
    nodes[nodes.len() / 2 + place]
}

/// The greatest number, which stands at the root.
pub(crate) fn root<N: Node>(nodes: &[N]) -> N
    requires { IsTree (map N.number nodes.now) }
    ensures { N.number result ≡ greatest_leaf (leaves_of (map N.number nodes.now)) }
{
    nodes[1]
}

/// The greater number of a node's two children.
fn greater_child<N: Node>(nodes: &[N], node: usize) -> N
    requires { node + node + 1 < length nodes.now }
    ensures { N.number result ≡ greater_under (map N.number nodes.now) node }
{
    nodes[2 * node].greater(nodes[2 * node + 1])
}

/// Gives the leaf at a place from 0 another number and mends the nodes above it, as far as they change.
pub(crate) fn put<N: Node>(nodes: &mut [N], place: usize, leaf: N)
    requires tree { IsTree (map N.number nodes.old) }
    requires within { place < length (leaves_of (map N.number nodes.old)) }
    ensures tree { IsTree (map N.number nodes.new) }
    ensures leaves { leaves_of (map N.number nodes.new)
        ≡ slice_set (leaves_of (map N.number nodes.old)) place (N.number leaf) }
    ensures size { length nodes.new ≡ length nodes.old }
{
    let mut child = nodes.len() / 2 + place;
    nodes[child] = leaf;
    while child > 1 {
        child /= 2;
        let mended = greater_child(nodes, child);
        if nodes[child].is_same(mended) {
            return;
        }
        nodes[child] = mended;
    }
}
