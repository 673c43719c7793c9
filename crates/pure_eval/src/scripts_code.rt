//! The code of a program's scripts, from which the evaluations of all its sessions go on.

ghost use Rattle.std.specs.Prelude.{◌≡◌, IfOk};
ghost use Rattle.js_machine_nodes.specs.Codes.{HasFunctions};
ghost use Rattle.js_machine_nodes.specs.Trees.{IsTable};
ghost use Rattle.js_machine_compiler.specs.Grown.{HasPlaces};
ghost use Rattle.js_machine_compiler.specs.Scripts.{IsOfScripts};
ghost use Rattle.pure_eval.specs.Returning.{IsCodeOf};

use crate::calling::add_call;
use crate::closed::is_whole;
use crate::evaluator::Evaluator;
use js_heap_memory::names::NameTable;
use js_machine_nodes::table::NodeTable;
use std::alloc::{AllocError, Global};
use std::marker::Model;

/// The code of a program's scripts with its names. The evaluations of all its sessions go on from it, and none copies
/// the code. Contracts see the names and the program.
#[derive(Drop)]
pub struct ScriptsCode {
    alloc: Global,
    names: NameTable,
    table: NodeTable,
}

impl Model for ScriptsCode {
    ghost use Rattle.std.specs.Coded.{codes};
    ghost use Rattle.pure_eval.specs.TermCodes.{term_coded};
    ghost use Rattle.pure_eval.specs.ScriptsCodes as codes_of_scripts;

    ghost Value = { codes_of_scripts.ScriptsCode };

    ghost coded = { Prim.hlevel (codes, term_coded) };

    ghost view = { λ c. codes_of_scripts.scripts_code c.names c.table };

    ghost invariant = { λ c. codes_of_scripts.IsShared c.names c.table };
}

impl ScriptsCode {
    ghost use Rattle.pure_eval.specs.ScriptsCodes.{scripts_code};

    /// That of a table which was shared, with its names. The lists that a machine keeps as its own are copied here, once
    /// for all sessions.
    ///
    /// # Errors
    ///
    /// There is no memory for it, or the table wasn't shared.
    pub fn of(
        alloc: Global,
        names: &NameTable,
        table: &NodeTable,
    ) -> Result<ScriptsCode, AllocError>
        requires table { IsTable table.now }
        requires places { HasPlaces table.now }
        requires functions { HasFunctions table.now }
        requires scripts { IsOfScripts names.now table.now }
        ensures { IfOk result (λ c. c ≡ scripts_code names.now table.now) }
    {
        // the code of every program is whole; that it is is tested here rather than carried on
        if !is_whole(table) {
            return Err(AllocError);
        }
        let names = names.copy()?;
        let table = table.another(alloc)?;
        Ok(ScriptsCode {
            alloc,
            names,
            table,
        })
    }

    /// An evaluator that has no source of an evaluation yet. Its names are copied, and the code isn't.
    ///
    /// # Errors
    ///
    /// There is no memory for it.
    pub(crate) fn evaluator(&self) -> Result<Evaluator, AllocError>
        ensures names { IfOk result (λ e. e.names ≡ self.now.names) }
        ensures code { IfOk result (λ e. IsCodeOf e self.now.program) }
    {
        let names = self.names.copy()?;
        let mut table = self.table.another(self.alloc)?;
        let call = add_call(&mut table)?;
        Ok(Evaluator {
            names,
            table,
            next: 0,
            call,
        })
    }
}
