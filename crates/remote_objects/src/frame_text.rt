//! Active frames with handles on their scopes, written without a tree (Chrome DevTools Protocol 1.3,
//! `Debugger.CallFrame` and `Debugger.Scope`).

ghost use Rattle.std.specs.Prelude.{◌≡◌, ◌++◌, Some, codes, map, option_copied, OnOk};
ghost use Rattle.cdp_json.specs.Compact.{compact_text, string_text};
ghost use Rattle.cdp_json.specs.Pieces.{Wrote};
ghost use Rattle.frames_scopes_types.specs.Views as shown;
ghost use Rattle.js_tree.specs.Scripts.{script_numbered};
ghost use Rattle.remote_objects.specs.CallFrames as listing;
ghost use Rattle.remote_objects.specs.Ids as ids;
ghost use Rattle.remote_objects.specs.Remote as remotes;
ghost use Rattle.remote_objects.specs.Views.{sight_of};
ghost use Rattle.remote_objects.specs.Written as written;

use crate::describer::Describer;
use crate::detail::Detail;
use crate::frames::{backtrace, url_of};
use crate::function_sources::FunctionSources;
use crate::remote::handle_on;
use crate::remote_text::{write_id, write_plain_front};
use cdp_json::pen::Pen;
use cdp_json::write_location;
use cdp_text::position::Place;
use frames_scopes_types::{CallFrame, ListedKind, Scope};
use js_heap::value::{Addr, Value};
use js_heap_memory::world::World;
use js_tree::scripts::script_numbered;
use object_groups::{Handles, Target};
use std::alloc::AllocError;

// ---- scopes

/// Writes the beginning of a scope of this name, which isn't empty.
fn write_scope_name(name: &[u16], pen: &mut Pen) -> Result<(), AllocError>
    ensures { OnOk result (Wrote pen.old (codes "{\"name\":" ++ (string_text name.now ++ codes ",\"object\":")) pen.new) }
{
    pen.put("{\"name\":")?;
    pen.quoted(name)?;
    pen.put(",\"object\":")
}

/// Writes the beginning of a scope: its name, where it has one.
fn write_scope_front(name: &[u16], pen: &mut Pen) -> Result<(), AllocError>
    ensures { OnOk result (Wrote pen.old (written.scope_front name.now) pen.new) }
{
    if name.is_empty() {
        pen.put("{\"object\":")
    } else {
        write_scope_name(name, pen)
    }
}

/// The end of a scope: how it is listed.
fn scope_back(kind: ListedKind) -> &'static str
    ensures { result.now ≡ written.scope_back kind }
{
    match kind {
        ListedKind::Block => ",\"type\":\"block\"}",
        ListedKind::Catch => ",\"type\":\"catch\"}",
        ListedKind::Local => ",\"type\":\"local\"}",
        ListedKind::Closure => ",\"type\":\"closure\"}",
        ListedKind::Script => ",\"type\":\"script\"}",
        ListedKind::Global => ",\"type\":\"global\"}",
    }
}

/// Writes the object of a scope's names with a handle, where one can be made, in this group or in none.
fn write_names_of(
    session: u64,
    group: Option<&[u16]>,
    a: Addr,
    handles: &mut Handles,
    pen: &mut Pen,
) -> Result<(), AllocError>
    ensures text { OnOk result (Wrote pen.old (compact_text (remotes.remote_scope session (option_copied group.entry) a handles.old).made) pen.new) }
    ensures handles { OnOk result (handles.new ≡ (remotes.remote_scope session (option_copied group.entry) a handles.old).handles) }
{
    write_plain_front(pen)?;
    let number = handle_on(Target::Scope(a), group, handles)?;
    write_id(session, number, pen)?;
    pen.put(",\"type\":\"object\"}")
}

// ---- frames

/// Writes the id of a frame in quotes.
fn write_frame_id(session: u64, stop: u64, depth: u64, pen: &mut Pen) -> Result<(), AllocError>
    ensures { OnOk result (Wrote pen.old (string_text (ids.frame_id session stop depth)) pen.new) }
{
    pen.put("\"")?;
    pen.natural(session)?;
    pen.put(".")?;
    pen.natural(stop)?;
    pen.put(".")?;
    pen.natural(depth)?;
    pen.put("\"")
}

/// Writes where a function begins.
fn write_beginning(place: Place, pen: &mut Pen) -> Result<(), AllocError>
    ensures { OnOk result (Wrote pen.old (written.function_text_at (Some place)) pen.new) }
{
    pen.put(",\"functionLocation\":")?;
    write_location(place, pen)
}

/// Writes where a frame's function begins; the script has none.
fn write_function_place(place: Option<Place>, pen: &mut Pen) -> Result<(), AllocError>
    ensures { OnOk result (Wrote pen.old (written.function_text_at place) pen.new) }
{
    match place {
        None => Ok(()),
        Some(place) => write_beginning(place, pen),
    }
}

/// Writes the beginning of a frame: which one it is, its function, and where it stands.
fn write_frame_front(
    session: u64,
    stop: u64,
    depth: u64,
    frame: &CallFrame<'_>,
    pen: &mut Pen,
) -> Result<(), AllocError>
    ensures { OnOk result (Wrote pen.old (written.frame_front session stop depth (shown.frame_of frame.now)) pen.new) }
{
    pen.put("{\"callFrameId\":")?;
    write_frame_id(session, stop, depth, pen)?;
    write_function_place(frame.function_place, pen)?;
    pen.put(",\"functionName\":")?;
    pen.quoted(frame.name)?;
    pen.put(",\"location\":")?;
    write_location(frame.place, pen)
}

impl<'w, W: World, S: FunctionSources> Describer<'w, W, S> {
    /// Writes a scope.
    fn write_scope(
        &self,
        scope: &Scope<'_>,
        handles: &mut Handles,
        pen: &mut Pen,
    ) -> Result<(), AllocError>
        ensures text { OnOk result (Wrote pen.old (compact_text (listing.scope_made (sight_of S.node_text (W.world self.now.names.now self.now.world.now) self.now.scripts.now self.now.session) (shown.scope_of scope.now) handles.old).made) pen.new) }
        ensures handles { OnOk result (handles.new ≡ (listing.scope_made (sight_of S.node_text (W.world self.now.names.now self.now.world.now) self.now.scripts.now self.now.session) (shown.scope_of scope.now) handles.old).handles) }
    {
        write_scope_front(scope.name, pen)?;
        write_names_of(
            self.session,
            Some(backtrace()),
            scope.bindings,
            handles,
            pen,
        )?;
        pen.put(scope_back(scope.kind))
    }

    /// Writes scopes, in order, with commas between them.
    fn write_scopes(
        &self,
        scopes: &[Scope<'_>],
        handles: &mut Handles,
        pen: &mut Pen,
    ) -> Result<(), AllocError>
        ensures text { OnOk result (Wrote pen.old (written.listed_text (listing.scopes_made (sight_of S.node_text (W.world self.now.names.now self.now.world.now) self.now.scripts.now self.now.session) (map shown.scope_of scopes.now) handles.old)) pen.new) }
        ensures handles { OnOk result (handles.new ≡ (listing.scopes_made (sight_of S.node_text (W.world self.now.names.now self.now.world.now) self.now.scripts.now self.now.session) (map shown.scope_of scopes.now) handles.old).handles) }
    {
        for i in 0..scopes.len() {
            pen.comma(i > 0)?;
            let scope = &scopes[i];
            self.write_scope(scope, handles, pen)?;
        }
        Ok(())
    }

    /// Writes the `this` of a frame.
    fn write_receiver(
        &self,
        value: Value,
        handles: &mut Handles,
        pen: &mut Pen,
    ) -> Result<(), AllocError>
        ensures text { OnOk result (Wrote pen.old (compact_text (remotes.remote (sight_of S.node_text (W.world self.now.names.now self.now.world.now) self.now.scripts.now self.now.session) (Some listing.backtrace) value handles.old).made) pen.new) }
        ensures handles { OnOk result (handles.new ≡ (remotes.remote (sight_of S.node_text (W.world self.now.names.now self.now.world.now) self.now.scripts.now self.now.session) (Some listing.backtrace) value handles.old).handles) }
    {
        self.write_remote(value, Detail::Plain, handles, Some(backtrace()), pen)
    }

    /// Writes the end of a frame: its scopes, its `this` and its URL.
    fn write_frame_back(
        &self,
        frame: &CallFrame<'_>,
        handles: &mut Handles,
        pen: &mut Pen,
    ) -> Result<(), AllocError>
        ensures text { OnOk result (Wrote pen.old (written.frame_back (written.listed_text (listing.scopes_made (sight_of S.node_text (W.world self.now.names.now self.now.world.now) self.now.scripts.now self.now.session) (shown.frame_of frame.now).scopes handles.old)) (compact_text (listing.receiver_made (sight_of S.node_text (W.world self.now.names.now self.now.world.now) self.now.scripts.now self.now.session) (shown.frame_of frame.now) handles.old).made) (listing.url_of (script_numbered self.now.scripts.now frame.now.place.script))) pen.new) }
        ensures handles { OnOk result (handles.new ≡ (listing.receiver_made (sight_of S.node_text (W.world self.now.names.now self.now.world.now) self.now.scripts.now self.now.session) (shown.frame_of frame.now) handles.old).handles) }
    {
        pen.put(",\"scopeChain\":[")?;
        self.write_scopes(frame.scopes.as_slice(), handles, pen)?;
        pen.put("],\"this\":")?;
        self.write_receiver(frame.this, handles, pen)?;
        pen.put(",\"url\":")?;
        pen.quoted(url_of(script_numbered(self.scripts, frame.place.script)))?;
        pen.put("}")
    }

    /// Writes a frame so far from the top one: its scopes from the innermost one outward, then its `this`.
    fn write_frame(
        &self,
        stop: u64,
        depth: u64,
        frame: &CallFrame<'_>,
        handles: &mut Handles,
        pen: &mut Pen,
    ) -> Result<(), AllocError>
        ensures text { OnOk result (Wrote pen.old (compact_text (listing.frame_made (sight_of S.node_text (W.world self.now.names.now self.now.world.now) self.now.scripts.now self.now.session) stop depth (shown.frame_of frame.now) handles.old).made) pen.new) }
        ensures handles { OnOk result (handles.new ≡ (listing.frame_made (sight_of S.node_text (W.world self.now.names.now self.now.world.now) self.now.scripts.now self.now.session) stop depth (shown.frame_of frame.now) handles.old).handles) }
    {
        write_frame_front(self.session, stop, depth, frame, pen)?;
        self.write_frame_back(frame, handles, pen)
    }

    /// Writes the frames of the stop of this number, from the top one outward, with commas between them.
    ///
    /// # Errors
    ///
    /// There is no memory for it. A part of it may have been written, and handles may have been made.
    pub fn write_frames(
        &self,
        stop: u64,
        frames: &[CallFrame<'_>],
        handles: &mut Handles,
        pen: &mut Pen,
    ) -> Result<(), AllocError>
        ensures text { OnOk result (Wrote pen.old (written.listed_text (listing.frames_made (sight_of S.node_text (W.world self.now.names.now self.now.world.now) self.now.scripts.now self.now.session) stop (map shown.frame_of frames.now) handles.old)) pen.new) }
        ensures handles { OnOk result (handles.new ≡ (listing.frames_made (sight_of S.node_text (W.world self.now.names.now self.now.world.now) self.now.scripts.now self.now.session) stop (map shown.frame_of frames.now) handles.old).handles) }
    {
        for depth in 0..frames.len() {
            pen.comma(depth > 0)?;
            let frame = &frames[depth];
            self.write_frame(stop, depth as u64, frame, handles, pen)?;
        }
        Ok(())
    }
}
