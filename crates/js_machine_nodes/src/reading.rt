//! Reading the table.

ghost use Rattle.std.specs.Prelude.{◌≡◌, slice_get};
ghost use Rattle.js_machine_nodes.specs.Trees.{kid_at, constant_at};

use crate::node::{ForOfEntry, Node};
use crate::table::NodeTable;
use js_heap::value::Value;

impl NodeTable {
    /// The node of a number, if there is one.
    #[inline(always)]
    pub fn node(&self, n: u32) -> Option<Node>
        ensures { result ≡ slice_get self.now.nodes.items n }
    {
        self.nodes.get(n as usize).copied()
    }

    /// The part at a place of the list of parts, if there is one.
    #[inline(always)]
    pub fn part(&self, at: u32) -> Option<u32>
        ensures { result ≡ slice_get self.now.kids.items at }
    {
        self.kids.get(at as usize).copied()
    }

    /// The part at a place of the list of parts; 0 where there is none.
    #[inline(always)]
    #[tactic(auto, unfolding(crate::specs::Trees::kid_at))]
    pub fn kid(&self, at: u32) -> u32
        ensures { result ≡ kid_at self.now at }
    {
        match self.kids.get(at as usize) {
            Some(kid) => *kid,
            None => 0,
        }
    }

    /// The entry of a `for .. of`, if there is one.
    pub fn for_of(&self, n: u32) -> Option<ForOfEntry>
        ensures { result ≡ slice_get self.now.for_ofs.items n }
    {
        self.for_ofs.get(n as usize).copied()
    }

    /// The constant of a number; undefined where there is none.
    #[inline(always)]
    #[tactic(auto, unfolding(crate::specs::Trees::constant_at))]
    pub fn constant(&self, n: u32) -> Value
        ensures { result ≡ constant_at self.now n }
    {
        match self.constants.get(n as usize) {
            Some(value) => *value,
            None => Value::Undefined,
        }
    }
}
