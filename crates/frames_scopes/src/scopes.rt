//! The scopes of a frame.

ghost use Rattle.std.specs.Prelude.{◌≡◌};
ghost use Rattle.js_heap_memory.specs.Heaps.{heap_world};
ghost use Rattle.js_semantics.specs.Frames.{listed_as, still_inside};
ghost use Rattle.frames_scopes.specs.Scopes.{name_on, shown_kind, shown_scopes};
ghost use Rattle.js_heap_memory.specs.Cells.{name_text};

use crate::cells::scope_at;
use crate::name::Name;
use frames_scopes_types::ListedKind;
use js_heap::cell::ScopeKind;
use js_heap::value::Addr;
use js_heap_memory::heap::BaseHeap;
use js_heap_memory::names::NameTable;
use js_heap_memory::stored::FunctionName;
use js_heap_memory::world::World;
use std::marker::Model;

/// A scope of a frame.
#[derive(Drop)]
pub struct ScopeView<'m> {
    /// How it is listed.
    pub kind: ListedKind,
    /// The name of its function, on the scope of a call and on that of the name of a function expression; else the empty one.
    pub name: Name<'m>,
    /// Where its names are.
    pub bindings: Addr,
}

/// The scopes of a frame that are still to come, from the innermost one outward. Contracts see their list.
#[derive(Drop)]
pub struct Scopes<'m> {
    names: &'m NameTable,
    heap: &'m BaseHeap,
    // the next one, whether no scope of a call came before it, and how many may come at most
    next: Option<Addr>,
    inside: bool,
    left: usize,
}

impl<'m> Model for Scopes<'m> {
    ghost use Rattle.std.specs.Prelude.{List};
    ghost use Rattle.js_heap_memory.specs.Heaps.{heap_world};
    ghost use Rattle.frames_scopes_types.specs.Frames.{ShownScope};
    ghost use Rattle.frames_scopes.specs.Scopes.{scopes_from};

    ghost Value = { List ShownScope };

    ghost view = { λ s. scopes_from s.left (heap_world s.names.now s.heap.now) s.inside s.next };
}

/// How a scope is listed; the innermost one of a call is the frame's own.
fn listed_as(kind: ScopeKind, inside: bool) -> ListedKind
    ensures { result ≡ shown_kind (listed_as kind inside) }
{
    match kind {
        ScopeKind::Block => ListedKind::Block,
        ScopeKind::Catch => ListedKind::Catch,
        ScopeKind::Function => {
            if inside {
                ListedKind::Local
            } else {
                ListedKind::Closure
            }
        }
        ScopeKind::Named => ListedKind::Closure,
        ScopeKind::Script => ListedKind::Script,
        ScopeKind::Global => ListedKind::Global,
    }
}

/// Whether no scope of a call came yet, behind a scope.
fn still_inside(kind: ScopeKind, inside: bool) -> bool
    ensures { result ≡ still_inside kind inside }
{
    match kind {
        ScopeKind::Function => false,
        _ => inside,
    }
}

/// The name that a scope shows whose function has a name.
fn shown_name<'m>(names: &'m NameTable, kind: ListedKind, name: &'m FunctionName) -> Name<'m>
    ensures { result ≡ name_on kind (name_text names.now name.now) }
{
    match kind {
        ListedKind::Local => Name::new(names, Some(name)),
        ListedKind::Closure => Name::new(names, Some(name)),
        _ => Name::new(names, None),
    }
}

impl<'m> Scopes<'m> {
    /// The scopes of a frame with this innermost one.
    pub(crate) fn of(names: &'m NameTable, heap: &'m BaseHeap, innermost: Addr) -> Scopes<'m>
        ensures { result ≡ shown_scopes (heap_world names.now heap.now) innermost }
    {
        Scopes {
            names,
            heap,
            next: Some(innermost),
            inside: true,
            left: heap.count(),
        }
    }
}

impl<'m> Iterator for Scopes<'m> {
    ghost use Rattle.std.specs.Iterator.{YieldsFirstBy, item_count};
    ghost use Rattle.frames_scopes.specs.ScopeViews.{scope_shown};

    type Item = ScopeView<'m>;

    ghost next_gives = { YieldsFirstBy scope_shown (λ left. left) };

    ghost remaining = { item_count (λ left. left) };

    fn next(&mut self) -> Option<ScopeView<'m>> {
        let bindings = self.next?;
        self.left = self.left.checked_sub(1)?;
        let scope = scope_at(self.heap, bindings)?;
        let kind = listed_as(scope.kind, self.inside);
        self.inside = still_inside(scope.kind, self.inside);
        self.next = scope.outer;
        Some(ScopeView {
            kind,
            name: shown_name(self.names, kind, scope.name),
            bindings,
        })
    }
}
