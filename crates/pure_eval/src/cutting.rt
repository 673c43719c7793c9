//! Cutting a table back to where it was.
//!
//! Names that an evaluation brought stay, and come in again without a new one.

ghost use Rattle.std.specs.Prelude.{◌≡◌, List, take};
ghost use Rattle.js_machine_nodes.specs.declared.node.SourceEntry.{SourceEntry};
ghost use Rattle.js_machine_nodes.specs.declared.table.NodeTable.{NodeTable as AnyTable};
ghost use Rattle.pure_eval.specs.Whole.{IsWhole};
ghost use Rattle.pure_eval.specs.Adding.{GoesOnWith};
ghost use Rattle.pure_eval.specs.Cutting.{IsMarkOf, IsCut, IsBack};

use js_machine_nodes::shared_list::SharedList;
use js_machine_nodes::table::NodeTable;

/// How long each list of a table was.
#[derive(Clone, Copy)]
pub struct TableMark {
    pub nodes: usize,
    pub kids: usize,
    pub constants: usize,
    pub blocks: usize,
    pub scripts: usize,
    pub fors: usize,
    pub for_ofs: usize,
    pub functions: usize,
    pub objects: usize,
    pub calls: usize,
    pub sources: usize,
}

/// How long each list of a table is. It takes no memory.
pub fn mark(table: &NodeTable) -> TableMark
    ensures { IsMarkOf table.now result }
{
    TableMark {
        nodes: table.nodes.len(),
        kids: table.kids.len(),
        constants: table.constants.len(),
        blocks: table.blocks.len(),
        scripts: table.scripts.len(),
        fors: table.fors.len(),
        for_ofs: table.for_ofs.len(),
        functions: table.functions.len(),
        objects: table.objects.len(),
        calls: table.calls.len(),
        sources: table.sources.len(),
    }
}

/// The first so many items of a list stay. It takes no memory, and next to no time where there are no others.
#[tactic(auto, using(std::proofs::lemmas::List::take_all))]
fn cut_list<T: Drop>(list: &mut SharedList<T>, count: usize)
    ensures { list.new.items ≡ take count list.old.items }
{
    if count < list.len() {
        list.truncate(count);
    }
}

/// Each list is as long as it was. It takes no memory.
pub fn cut(table: &mut NodeTable, mark: TableMark)
    ensures cut { IsCut mark table.old table.new }
    // A table to which sources were added since is one with the same sources again.
    ensures back { (t : AnyTable) (es : List SourceEntry) → IsWhole t → IsMarkOf t mark → GoesOnWith t table.old es → IsBack t table.new }
{
    cut_list(&mut table.nodes, mark.nodes);
    cut_list(&mut table.kids, mark.kids);
    cut_list(&mut table.constants, mark.constants);
    cut_list(&mut table.blocks, mark.blocks);
    cut_list(&mut table.scripts, mark.scripts);
    cut_list(&mut table.fors, mark.fors);
    cut_list(&mut table.for_ofs, mark.for_ofs);
    cut_list(&mut table.functions, mark.functions);
    cut_list(&mut table.objects, mark.objects);
    cut_list(&mut table.calls, mark.calls);
    cut_list(&mut table.sources, mark.sources);
}
