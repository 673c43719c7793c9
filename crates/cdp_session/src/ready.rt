//! An expression that is evaluated again and again, as it was last made ready for that.

ghost use Rattle.std.specs.Prelude.{◌≡◌, IfOk, IfSome};
ghost use Rattle.pure_eval.specs.Preparing.{IsPrepared};
ghost use Rattle.cdp_session.specs.Conditions.{IsParsedTo, IsReadyText};

use crate::program::Program;
use js_heap::value::Addr;
use js_heap_operators::values::same_address;
use js_tree::script::Expression;
use pure_eval::PreparedSource;
use std::alloc::{AllocError, Global};
use std::marker::Model;

/// A source that is ready to be evaluated, and the address at which it is to be kept.
#[derive(Drop)]
pub(crate) struct Ready {
    at: Addr,
    source: PreparedSource,
}

/// An expression that its text was parsed to, with what it was last made ready as, if it was. Contracts see the
/// expression.
#[derive(Drop)]
pub(crate) struct ReadyExpression {
    expression: Expression,
    ready: Option<Ready>,
}

impl Model for ReadyExpression {
    ghost use Rattle.js_tree.specs.contracts.script.Expression as held;
    ghost use Rattle.js_tree.specs.declared.script.Expression.{Expression as Parsed};
    ghost use Rattle.cdp_session.specs.Conditions.{IsReadyFor};

    ghost Value = { Parsed };

    ghost coded = { held.the_row.coded };

    ghost view = { λ e. e.expression };

    ghost invariant = { λ e. IsReadyFor e.expression e.ready };
}

impl ReadyExpression {
    /// An expression that wasn't made ready yet.
    pub(crate) fn new(expression: Expression) -> ReadyExpression
        requires { IsParsedTo expression.source expression }
        ensures { result ≡ expression }
    {
        ReadyExpression {
            expression,
            ready: None,
        }
    }

    /// Takes out what was made ready, where that was done for this address.
    fn kept(&mut self, at: Addr) -> Option<PreparedSource>
        ensures ready { IfSome result (λ p. IsPrepared at self.old p) }
        ensures same { self.new ≡ self.old }
    {
        let Ready {
            at: kept_at,
            source,
        } = self.ready.take()?;
        if same_address(kept_at, at) {
            Some(source)
        } else {
            None
        }
    }

    /// The expression, ready to be evaluated with its source at an address. It is made ready anew only where it wasn't
    /// kept for that address.
    ///
    /// # Errors
    ///
    /// There is no memory for it.
    pub(crate) fn prepared<P: Program>(
        &mut self,
        alloc: Global,
        program: &P,
        at: Addr,
    ) -> Result<PreparedSource, AllocError>
        ensures ready { IfOk result (λ p. IsPrepared at self.old p) }
        ensures read { IfOk result (λ p. IsReadyText at p) }
        ensures same { self.new ≡ self.old }
    {
        match self.kept(at) {
            Some(source) => Ok(source),
            None => program.prepared(alloc, at, &self.expression),
        }
    }

    /// Keeps what was made ready for an address, for the next time.
    pub(crate) fn keep(&mut self, at: Addr, source: PreparedSource)
        requires { IsPrepared at self.old source }
        ensures { self.new ≡ self.old }
    {
        self.ready = Some(Ready { at, source });
    }
}
