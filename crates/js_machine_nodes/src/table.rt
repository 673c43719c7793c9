//! The table of nodes.

ghost use Rattle.std.specs.Prelude.{◌≡◌, IfOk, OnOk};
ghost use Rattle.js_machine_nodes.specs.Trees.{IsEmpty};

use crate::node::{
    CallEntry, ForEntry, ForOfEntry, FunctionEntry, MemberEntry, Node, ScriptEntry, SourceEntry,
};
use crate::shared_list::SharedList;
use js_heap::value::Value;
use js_heap_memory::stored::Slots;
use std::alloc::{AllocError, Global};

/// The nodes of all sources of a program, with the parts that they have and the entries that they name by number. What
/// stands in front in each list may be shared with other tables. The lists that a machine reads in every step stay its
/// own: other tables share one copy of them.
#[derive(Drop)]
pub struct NodeTable {
    pub nodes: SharedList<Node>,
    /// Parts of nodes, by their numbers in `nodes`.
    pub kids: SharedList<u32>,
    pub constants: SharedList<Value>,
    /// The names of blocks.
    pub blocks: SharedList<Slots>,
    pub scripts: SharedList<ScriptEntry>,
    pub fors: SharedList<ForEntry>,
    pub for_ofs: SharedList<ForOfEntry>,
    pub functions: SharedList<FunctionEntry>,
    /// The members of object literals.
    pub objects: SharedList<Vec<MemberEntry>>,
    pub calls: SharedList<CallEntry>,
    pub sources: SharedList<SourceEntry>,
}

impl NodeTable {
    /// A table in which nothing is yet. It takes no memory.
    pub fn new(alloc: Global) -> NodeTable
        ensures { IsEmpty result }
    {
        NodeTable {
            nodes: SharedList::new(alloc),
            kids: SharedList::new(alloc),
            constants: SharedList::new(alloc),
            blocks: SharedList::new(alloc),
            scripts: SharedList::new(alloc),
            fors: SharedList::new(alloc),
            for_ofs: SharedList::new(alloc),
            functions: SharedList::new(alloc),
            objects: SharedList::new(alloc),
            calls: SharedList::new(alloc),
            sources: SharedList::new(alloc),
        }
    }

    /// From now on other tables may have its entries in front, if there is memory for that (`another` says whether).
    /// Nothing else changes.
    pub fn share(&mut self)
        ensures { self.new ≡ self.old }
    {
        self.blocks.share();
        self.scripts.share();
        self.fors.share();
        self.functions.share();
        self.objects.share();
        self.sources.share();
    }

    /// Becomes another table with the same entries in front as one that was shared.
    fn become_another(&mut self, table: &NodeTable) -> Result<(), AllocError>
        ensures { OnOk result (self.new ≡ table.now) }
    {
        self.nodes = table.nodes.another_or_copied()?;
        self.kids = table.kids.another_or_copied()?;
        self.constants = table.constants.another_or_copied()?;
        self.blocks = table.blocks.another()?;
        self.scripts = table.scripts.another()?;
        self.fors = table.fors.another()?;
        self.for_ofs = table.for_ofs.another_or_copied()?;
        self.functions = table.functions.another()?;
        self.objects = table.objects.another()?;
        self.calls = table.calls.another_or_copied()?;
        self.sources = table.sources.another()?;
        Ok(())
    }

    /// Another table with the same entries in front, and none of its own yet. Only the lists that stayed its own are
    /// copied, once: tables made of the other one share them.
    ///
    /// # Errors
    ///
    /// There is no memory for the copies, or the table wasn't shared, or has entries of its own, or too many tables have
    /// its front.
    pub fn another(&self, alloc: Global) -> Result<NodeTable, AllocError>
        ensures { IfOk result (λ t. t ≡ self.now) }
    {
        let mut table = NodeTable::new(alloc);
        table.become_another(self)?;
        Ok(table)
    }
}
