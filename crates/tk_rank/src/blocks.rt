//! One side of a rank in a single width: leaves in blocks, under a tree of the greatest of each.

ghost use Rattle.std.specs.Prelude.{◌≡◌, ℕ, ◌<◌, ◌≤◌, ◌+◌, ◌*◌, length, min, IfOk, map, slice_index_or, slice_set, None};
ghost use Rattle.tk_base.specs.Ascending.{numbers_of};
ghost use Rattle.tk_rank.specs.Blocks.{AreBlocks, blocks_of};
ghost use Rattle.tk_rank.specs.Tree.{greatest_leaf, greatest_leaf_outside, objects_over};

use crate::leaves::{add_above, greatest, greatest_outside};
use crate::node::Node;
use crate::nodes::{empty, leaf, put, root};
use std::alloc::Global;
use std::marker::Model;
use tk_base::{NoMemory, Obj, ObjSet};

/// How many leaves have one node above them.
const BLOCK: usize = 64;

/// Numbers at some places, in blocks, and the greatest of each block in a full binary tree.
#[derive(Debug, Drop)]
pub(crate) struct Blocks<N: Node> {
    leaves: Vec<N>,
    nodes: Vec<N>,
}

impl<N: Node> Model for Blocks<N> {
    ghost use Rattle.std.specs.Prelude.{map, vec_capacity};
    ghost use Rattle.tk_rank.specs.Blocks.{AreBlocksIn};
    ghost use Rattle.tk_rank.specs.Tree.{LeavesView};

    ghost Value = { LeavesView };

    ghost view = { λ b. record { leaves = map N.number b.leaves.items; room = vec_capacity b.leaves } };

    ghost invariant = { λ b.
        AreBlocksIn (map N.number b.leaves.items) (map N.number b.nodes.items)
        (vec_capacity b.leaves) (vec_capacity b.nodes) };
}

/// How many blocks so many leaves are.
fn count(leaves: usize) -> usize
    requires { leaves ≤ 65536 }
    ensures { result ≡ blocks_of leaves }
{
    (leaves + (BLOCK - 1)) / BLOCK
}

/// The place behind a block.
fn end(leaves: usize, block: usize) -> usize
    requires { block < 65536 }
    ensures { result ≡ min leaves (64 * (block + 1)) }
{
    leaves.min(BLOCK * (block + 1))
}

/// Gives a leaf another number. It is seen beside the greatest of its block alone, unless it was or becomes that.
fn put_leaf<N: Node>(leaves: &mut [N], nodes: &mut [N], place: usize, number: N)
    requires blocks { AreBlocks (map N.number leaves.old) (map N.number nodes.old) }
    requires within { place < length leaves.old }
    ensures blocks { AreBlocks (map N.number leaves.new) (map N.number nodes.new) }
    ensures leaves { map N.number leaves.new ≡ slice_set (map N.number leaves.old) place (N.number number) }
{
    let block = place / BLOCK;
    let old = leaves[place];
    let top = leaf(nodes, block);
    leaves[place] = number;
    if number.is_same(top.greater(number)) {
        put(nodes, block, number);
    } else if old.is_same(top) {
        let mended = greatest(leaves, BLOCK * block, end(leaves.len(), block));
        put(nodes, block, mended);
    }
}

impl<N: Node> Blocks<N> {
    /// No leaf, with room for so many. The room is not written.
    pub fn with_room(alloc: Global, leaves: usize) -> Result<Blocks<N>, NoMemory>
        requires { leaves ≤ 65536 }
        ensures none { IfOk result (λ b. length b.leaves ≡ 0) }
        ensures room { IfOk result (λ b. b.room ≡ leaves) }
    {
        let room = Vec::with_capacity(alloc, leaves)?;
        let mut nodes = Vec::with_capacity(alloc, 2 * count(leaves).next_power_of_two())?;
        empty(&mut nodes, 0);
        Ok(Blocks {
            leaves: room,
            nodes,
        })
    }

    /// Takes so many empty leaves for what was there.
    pub fn clear(&mut self, leaves: usize)
        requires few { leaves ≤ 65536 }
        requires room { leaves ≤ self.old.room }
        ensures count { length self.new.leaves ≡ leaves }
        ensures empty { (i : ℕ) → slice_index_or self.new.leaves i None ≡ None }
        ensures room { self.new.room ≡ self.old.room }
    {
        self.leaves.clear();
        for _ in 0..leaves {
            self.leaves.push_reserved(N::none());
        }
        empty(&mut self.nodes, count(leaves));
    }

    /// How many leaves there are.
    pub fn len(&self) -> usize
        ensures value { result ≡ length self.now.leaves }
        ensures few { result ≤ 65536 }
        ensures room { result ≤ self.now.room }
    {
        self.leaves.len()
    }

    /// What stands at a place from 0.
    pub fn leaf(&self, place: usize) -> N
        requires { place < length self.now.leaves }
        ensures { N.number result ≡ slice_index_or self.now.leaves place None }
    {
        self.leaves[place]
    }

    /// Puts another number at a place.
    pub fn set(&mut self, place: usize, number: N)
        requires { place < length self.old.leaves }
        ensures leaves { self.new.leaves ≡ slice_set self.old.leaves place (N.number number) }
        ensures room { self.new.room ≡ self.old.room }
    {
        put_leaf(
            self.leaves.as_mut_slice(),
            self.nodes.as_mut_slice(),
            place,
            number,
        );
    }

    /// The greatest number, read at the root.
    pub fn greatest(&self) -> N
        ensures { N.number result ≡ greatest_leaf self.now.leaves }
    {
        root(self.nodes.as_slice())
    }

    /// The objects whose number is above a level, in the time of the blocks and of the leaves of those that have one.
    pub fn above(&self, alloc: Global, level: i128) -> Result<Vec<Obj>, NoMemory>
        ensures { IfOk result (λ v. numbers_of v.items ≡ objects_over level self.now.leaves) }
    {
        let leaves = self.leaves.as_slice();
        let mut found = Vec::new(alloc);
        for block in 0..count(leaves.len()) {
            if leaf(self.nodes.as_slice(), block).is_over(level) {
                let to = end(leaves.len(), block);
                add_above(leaves, BLOCK * block, to, level, &mut found)?;
            }
        }
        Ok(found)
    }

    /// The greatest number outside a set, in the time of the blocks and of the set, and of the leaves of those blocks whose
    /// greatest number an object of the set has.
    pub fn greatest_outside(&self, set: &ObjSet) -> Option<i128>
        ensures { result ≡ greatest_leaf_outside self.now.leaves set.now }
    {
        // The length is read for its clause, that the set ascends.
        let _ = set.len();
        let leaves = self.leaves.as_slice();
        let mut most = N::none();
        let mut place = 0;
        for block in 0..count(leaves.len()) {
            let from = BLOCK * block;
            let to = end(leaves.len(), block);
            let top = leaf(self.nodes.as_slice(), block);
            let (number, next) = greatest_outside(leaves, from, to, top, set, place);
            most = most.greater(number);
            place = next;
        }
        most.get()
    }
}
