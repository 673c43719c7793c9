//! What the evaluations of a session go on from.

ghost use Rattle.std.specs.Prelude.{◌≡◌, IfOk, OnOk};
ghost use Rattle.js_semantics.specs.Evaluation.{next_kept};
ghost use Rattle.pure_eval.specs.Preparing.{IsPrepared};
ghost use Rattle.pure_eval.specs.Workspaces.{begun, emptied_workspace, opened as just_opened};
ghost use Rattle.cdp_session.specs.Code.{code_of, workspace_in};
ghost use Rattle.cdp_session.specs.Conditions.{AreRead, HoldsRead, IsReadyText};
ghost use Rattle.cdp_session.specs.Sessions.{no_workspace};
ghost use Rattle.cdp_session.specs.Situations.{seen};

use crate::coded_scripts::CodedScripts;
use crate::program::Program;
use crate::ready::ReadyExpression;
use crate::situation::Situation;
use pure_eval::{OpenWorkspace, PreparedSource, Workspace};
use std::alloc::{AllocError, Global};
use std::marker::Model;
use std::mem;

/// Whether the workspace of a session is there.
#[derive(Drop)]
pub(crate) enum Making {
    /// It wasn't opened yet.
    NotMade,
    /// It was made.
    Made(Workspace),
    /// It is lent to an evaluation, or there was no memory for one.
    GivenUp,
}

impl Making {
    /// The workspace, for a program of these scripts. It is made now where it wasn't yet.
    ///
    /// # Errors
    ///
    /// It was given up, or there is no memory for it.
    fn into_workspace(self, scripts: &CodedScripts<'_>) -> Result<Workspace, AllocError>
        ensures workspace { IfOk result (λ w. w.workspace ≡ workspace_in scripts.now self) }
        ensures held { HoldsRead self → IfOk result (λ w. AreRead w.held) }
    {
        match self {
            Making::NotMade => scripts.workspace(),
            Making::Made(workspace) => Ok(workspace),
            Making::GivenUp => Err(AllocError),
        }
    }

    /// Gives up all that evaluations made and kept. Takes no memory.
    fn empty(&mut self)
        ensures workspace { (scripts : _)
            → workspace_in scripts self.new ≡ emptied_workspace (workspace_in scripts self.old) }
        ensures held { HoldsRead self.old → HoldsRead self.new }
    {
        match self {
            Making::NotMade => {}
            Making::Made(workspace) => workspace.empty(),
            Making::GivenUp => {}
        }
    }
}

/// The workspace of a session of a program of these scripts. It is made where it is first opened, and takes no memory
/// until then. Contracts see it as if it had been made at once. The code that it holds is that of expressions' texts.
#[derive(Drop)]
pub(crate) struct Evaluations<'p> {
    scripts: CodedScripts<'p>,
    making: Making,
}

impl<'p> Model for Evaluations<'p> {
    ghost use Rattle.std.specs.Coded.{codes};
    ghost use Rattle.pure_eval.specs.TermCodes.{term_coded};
    ghost use Rattle.pure_eval.specs.Workspaces.{Workspace as Kept};
    ghost use Rattle.cdp_session.specs.Code.{workspace_in};
    ghost use Rattle.cdp_session.specs.Conditions.{HoldsRead};

    ghost Value = { Kept };

    ghost coded = { Prim.hlevel (codes, term_coded) };

    ghost view = { λ e. workspace_in e.scripts e.making };

    ghost invariant = { λ e. HoldsRead e.making };
}

/// A workspace, open over the cells of the program.
///
/// # Errors
///
/// The program has other names.
fn open_over<'b, P: Program>(
    workspace: Workspace,
    situation: &Situation<'b, P>,
) -> Result<OpenWorkspace<'b>, AllocError>
    ensures opened { IfOk result (λ o. o.workspace ≡ just_opened (seen P.standing situation.now).standing.world
        workspace.workspace) }
    ensures held { IfOk result (λ o. o.held ≡ workspace.held) }
{
    let cells = situation.program.cells();
    if !workspace.has_names_of(cells.heap, cells.names) {
        return Err(AllocError);
    }
    Ok(workspace.open(cells.heap))
}

impl<'p> Evaluations<'p> {
    /// Those of a session that evaluated nothing yet. Takes no memory.
    pub(crate) fn new(scripts: CodedScripts<'p>) -> Evaluations<'p>
        ensures { result ≡ begun (code_of scripts.entry) }
    {
        Evaluations {
            scripts,
            making: Making::NotMade,
        }
    }

    /// Takes the workspace out, which is to be put back. It is made now where it wasn't yet.
    fn take(&mut self) -> Result<Workspace, AllocError>
        ensures workspace { IfOk result (λ w. w.workspace ≡ self.old) }
        ensures held { IfOk result (λ w. AreRead w.held) }
        ensures rest { self.new ≡ no_workspace }
    {
        let making = mem::replace(&mut self.making, Making::GivenUp);
        making.into_workspace(&self.scripts)
    }

    /// The workspace, open over the cells of the program. Until it is put back there is none. No code is held any more.
    ///
    /// # Errors
    ///
    /// There is no memory for it, or there was none for an evaluation before. The session is to be dropped.
    pub(crate) fn open<'b, P: Program>(
        &mut self,
        situation: &Situation<'b, P>,
    ) -> Result<OpenWorkspace<'b>, AllocError>
        ensures opened { IfOk result (λ o. o.workspace ≡ just_opened (seen P.standing situation.now).standing.world
            self.old) }
        ensures rest { OnOk result (self.new ≡ no_workspace) }
    {
        let mut workspace = self.take()?;
        workspace.drop_held();
        open_over(workspace, situation)
    }

    /// The same, with the code that is held.
    ///
    /// # Errors
    ///
    /// There is no memory for it, or there was none for an evaluation before. The session is to be dropped.
    pub(crate) fn open_holding<'b, P: Program>(
        &mut self,
        situation: &Situation<'b, P>,
    ) -> Result<OpenWorkspace<'b>, AllocError>
        ensures opened { IfOk result (λ o. o.workspace ≡ just_opened (seen P.standing situation.now).standing.world
            self.old) }
        ensures held { IfOk result (λ o. AreRead o.held) }
        ensures rest { OnOk result (self.new ≡ no_workspace) }
    {
        let workspace = self.take()?;
        open_over(workspace, situation)
    }

    /// Holds the code of an expression, ready to be evaluated at the next address, for as long as nothing else is
    /// evaluated; the answer is the source that is ready.
    ///
    /// # Errors
    ///
    /// There is no memory for it, or there was none for an evaluation before. The session is to be dropped.
    pub(crate) fn hold<P: Program>(
        &mut self,
        alloc: Global,
        program: &P,
        expression: &mut ReadyExpression,
    ) -> Result<PreparedSource, AllocError>
        ensures ready { IfOk result (λ p. IsPrepared (next_kept self.old.scratch) expression.old p) }
        ensures read { IfOk result (λ p. IsReadyText (next_kept self.old.scratch) p) }
        ensures kept { OnOk result (self.new ≡ self.old) }
        ensures same { expression.new ≡ expression.old }
    {
        let workspace = self.take()?;
        let prepared = expression.prepared(alloc, program, workspace.next_address())?;
        let workspace = workspace.hold(alloc, &prepared)?;
        self.put_holding(workspace);
        Ok(prepared)
    }

    /// Puts the workspace back that evaluations go on from. No code is held any more. Takes no memory.
    pub(crate) fn put(&mut self, workspace: Workspace)
        ensures { self.new ≡ workspace.workspace }
    {
        let mut workspace = workspace;
        workspace.drop_held();
        self.put_holding(workspace);
    }

    /// The same, with the code that is held. Takes no memory.
    pub(crate) fn put_holding(&mut self, workspace: Workspace)
        requires { AreRead workspace.held }
        ensures { self.new ≡ workspace.workspace }
    {
        self.making = Making::Made(workspace);
    }

    /// Gives up all that evaluations made and kept. Takes no memory.
    pub(crate) fn empty(&mut self)
        ensures { self.new ≡ emptied_workspace self.old }
    {
        self.making.empty();
    }
}
