//! The scripts of a program, with the code from which the evaluations of its sessions go on.

ghost use Rattle.std.specs.Prelude.{◌≡◌, IfOk};
ghost use Rattle.pure_eval.specs.Workspaces.{begun};
ghost use Rattle.cdp_session.specs.Code.{code_of};
ghost use Rattle.cdp_session.specs.Conditions.{AreRead};

use js_tree::script::Script;
use pure_eval::{ScriptsCode, Workspace};
use std::alloc::{AllocError, Global};
use std::marker::Model;
use std::sync::Arc;

/// Scripts with their code, which all sessions of their program share. Contracts see the scripts.
#[derive(Drop)]
pub struct CodedScripts<'p> {
    alloc: Global,
    scripts: &'p [Script],
    code: Arc<ScriptsCode, Global>,
}

impl<'p> Model for CodedScripts<'p> {
    ghost use Rattle.js_tree.specs.contracts.tree.Stmt as stmt;
    ghost use Rattle.std.specs.Prelude.{◌≡◌, List};
    ghost use Rattle.std.specs.Arc.{arc_value};
    ghost use Rattle.std.specs.Coded.{codes};
    ghost use Rattle.js_tree.specs.declared.script.Script.{Script as AnyScript};
    ghost use Rattle.cdp_session.specs.Code.{code_of};

    ghost Value = { List AnyScript };

    ghost coded = { Prim.hlevel (codes, stmt.the_row.coded) };

    ghost view = { λ s. s.scripts.now };

    ghost invariant = { λ s. (arc_value s.code).program ≡ code_of s.scripts.now };
}

impl<'p> CodedScripts<'p> {
    /// Scripts with their code.
    ///
    /// # Errors
    ///
    /// There is no memory for it.
    pub fn of(
        alloc: Global,
        scripts: &'p [Script],
        code: ScriptsCode,
    ) -> Result<CodedScripts<'p>, AllocError>
        requires { code.program ≡ code_of scripts.now }
        ensures { IfOk result (λ s. s ≡ scripts.now) }
    {
        let code = Arc::new(alloc, code)?;
        Ok(CodedScripts {
            alloc,
            scripts,
            code,
        })
    }

    /// The same scripts with the same code, of which nothing is copied.
    ///
    /// # Errors
    ///
    /// Too many sessions share it.
    pub fn another(&self) -> Result<CodedScripts<'p>, AllocError>
        ensures { IfOk result (λ s. s ≡ self.now) }
    {
        Ok(CodedScripts {
            alloc: self.alloc,
            scripts: self.scripts,
            code: Arc::try_clone(&self.code)?,
        })
    }

    /// What the evaluations of a session begin with. The names are copied, and the code isn't. No code is held.
    ///
    /// # Errors
    ///
    /// There is no memory for it.
    pub(crate) fn workspace(&self) -> Result<Workspace, AllocError>
        ensures workspace { IfOk result (λ w. w.workspace ≡ begun (code_of self.now)) }
        ensures held { IfOk result (λ w. AreRead w.held) }
    {
        Workspace::start(self.alloc, &self.code)
    }
}
