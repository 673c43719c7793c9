//! The sources of functions.

ghost use Rattle.std.specs.Prelude.{◌≡◌, IfOk, option_copied};
ghost use Rattle.remote_objects.specs.Values as values;
ghost use Rattle.remote_objects.specs.Views.{sight_of};

use crate::describer::Describer;
use crate::function_sources::FunctionSources;
use cdp_text::units::Units;
use js_heap::built_in::Code;
use js_heap_memory::world::World;
use js_heap_operators::text::quoted;
use js_machine_actions::seen::units_at;
use js_tree::node::NodeId;
use js_tree::script::Script;
use js_tree::scripts::script_numbered;
use js_tree::span::units_in;
use std::alloc::{AllocError, Global};

/// The source of a node of a script; of no script it is empty.
fn node_source(script: Option<&Script>, node: u32) -> &[u16]
    ensures { result.now ≡ values.node_source (option_copied script.entry) node }
{
    match script {
        None => &[],
        Some(script) => units_in(script.spans.of(NodeId(node)), script.source.as_slice()),
    }
}

/// What is shown of a function without a source (ECMA-262, 20.2.3.5).
fn native_text(alloc: Global, name: &[u16]) -> Result<Units, AllocError>
    ensures { IfOk result (λ shown. shown ≡ values.native_text name.now) }
{
    quoted(alloc, b"function ", name, b"() { [native code] }")
}

impl<'w, W: World, S: FunctionSources> Describer<'w, W, S> {
    /// The source of a function: that of its node, in its script or in the text of the evaluation that made it.
    pub(crate) fn function_text(&self, code: Code, name: &[u16]) -> Result<Units, AllocError>
        ensures { IfOk result (λ shown. shown ≡ values.function_text (sight_of S.node_text (W.world self.now.names.now self.now.world.now) self.now.scripts.now self.now.session) code name.now) }
    {
        match code {
            Code::Script { number, node } => {
                let source = node_source(script_numbered(self.scripts, number), node);
                Units::from_slice(self.alloc, source)
            }
            Code::Kept { at, node } => {
                let text = units_at(self.world, self.names, at);
                self.sources.node_text(self.alloc, text, node)
            }
            Code::BuiltIn(_) => native_text(self.alloc, name),
        }
    }
}
