//! The harbor of a call: the doors and clients that its lines ask for, and what they were told.

ghost use Rattle.std.specs.Prelude.{All, IfOk};
ghost use Rattle.cdp_edge_server.specs.MemDoor.{IsNewDoor, IsUnusedLink};

use crate::clients::{Act, Client, Entrance};
use crate::texts::sorted_parts;
use cdp_edge_server::{Gate, Incoming, MemDoor, MemHarbor, MemLink};
use std::alloc::{AllocError, Global};
use std::collections::VecDeque;

/// How often the link of a client that waits is asked in vain before the client goes.
const PATIENCE: u64 = 10_000_000;

/// The gates that one client knows of so far, by their numbers: the other one is still to come.
type Gates = VecDeque<(u64, Gate)>;

/// The place of the gate of this number.
fn place_of(gates: &Gates, number: u64) -> Option<usize> {
    gates.iter().position(|gate| gate.0 == number)
}

/// The gate of this number, of which there are two: for the client that opens it, and for the one that waits.
fn gate_of(alloc: Global, gates: &mut Gates, number: u64) -> Result<Gate, AllocError> {
    if let Some(place) = place_of(gates, number) {
        if let Some((_, gate)) = gates.remove(place) {
            return Ok(gate);
        }
    }
    let (gate, other) = Gate::pair(alloc)?;
    gates.push_back((number, other))?;
    Ok(gate)
}

/// The gate at which a client waits: that of the number, or one that nobody opens.
fn awaited(alloc: Global, gates: &mut Gates, number: Option<u64>) -> Result<Gate, AllocError> {
    match number {
        Some(number) => gate_of(alloc, gates, number),
        None => Gate::pair(alloc).map(|pair| pair.0),
    }
}

/// What a link gives for an act of its client.
fn incoming_of(alloc: Global, act: &Act, gates: &mut Gates) -> Result<Incoming, AllocError> {
    match act {
        Act::Says(text) => Ok(Incoming::Text(text.clone()?)),
        Act::SaysBinary => Ok(Incoming::Binary),
        Act::SaysTooMuch => Ok(Incoming::TooBig),
        Act::IsQuiet => Ok(Incoming::Quiet),
        Act::Waits(number) => Ok(Incoming::Hold(awaited(alloc, gates, *number)?, PATIENCE)),
        Act::Goes => Ok(Incoming::Closed),
    }
}

/// What a link gives for all acts of its client.
fn script_of(alloc: Global, acts: &[Act], gates: &mut Gates) -> Result<Vec<Incoming>, AllocError> {
    let mut script = Vec::new(alloc);
    for act in acts {
        script.push(incoming_of(alloc, act, gates)?)?;
    }
    Ok(script)
}

/// The link of a client.
fn link_of(alloc: Global, client: &Client, gates: &mut Gates) -> Result<MemLink, AllocError>
    ensures { IfOk result IsUnusedLink }
{
    let failing = client.failing.clone()?;
    let link = MemLink::new(script_of(alloc, &client.acts, gates)?, failing);
    match client.opens {
        Some(number) => Ok(link.opening(gate_of(alloc, gates, number)?)),
        None => Ok(link),
    }
}

/// The links of the clients of an entrance, in order.
fn links_of(
    alloc: Global,
    entrance: &Entrance,
    gates: &mut Gates,
) -> Result<Vec<MemLink>, AllocError>
    ensures { IfOk result (λ links. All IsUnusedLink links.items) }
{
    let mut links = Vec::new(alloc);
    for client in &entrance.clients {
        links.push(link_of(alloc, client, gates)?)?;
    }
    Ok(links)
}

/// A door at which the clients of an entrance arrive.
fn door_of(alloc: Global, entrance: &Entrance, gates: &mut Gates) -> Result<MemDoor, AllocError>
    ensures { IfOk result IsNewDoor }
{
    let failing = entrance.failing.clone()?;
    Ok(MemDoor::new(links_of(alloc, entrance, gates)?, failing))
}

/// The doors of these entrances, in order.
fn doors_of(
    alloc: Global,
    entrances: &[Entrance],
    gates: &mut Gates,
) -> Result<Vec<MemDoor>, AllocError>
    ensures { IfOk result (λ doors. All IsNewDoor doors.items) }
{
    let mut doors = Vec::new(alloc);
    for entrance in entrances {
        doors.push(door_of(alloc, entrance, gates)?)?;
    }
    Ok(doors)
}

/// A harbor with these doors to open and these clients to dial, whose calls of these numbers fail.
pub(crate) fn harbor_of(
    alloc: Global,
    dialled: &Entrance,
    doors: &[Entrance],
    failing: &[u64],
) -> Result<MemHarbor, AllocError> {
    let mut gates = VecDeque::new(alloc);
    let links = links_of(alloc, dialled, &mut gates)?;
    let doors = doors_of(alloc, doors, &mut gates)?;
    Ok(MemHarbor::new(doors, links, failing.to_vec(alloc)?))
}

/// What a client was told, behind what others were: a line for each text that it was sent, and one for the code with
/// which it was closed.
fn append_told(alloc: Global, told: &mut String, link: &MemLink) -> Result<(), AllocError> {
    told.push_str("client\n")?;
    for text in link.sent() {
        told.push_str("sent ")?;
        told.push_str(text)?;
        told.push('\n')?;
    }
    match link.closed_with() {
        Some(code) => told.push_str(&format!(in alloc; "closed {code}\n")?),
        None => Ok(()),
    }
}

/// What the clients of these links were told.
fn told_of(alloc: Global, links: &[MemLink]) -> Result<String, AllocError> {
    let mut told = String::new(alloc);
    for link in links {
        append_told(alloc, &mut told, link)?;
    }
    Ok(told)
}

/// What the clients were told that came back, as `told_at` says it. The doors come back in no order.
pub(crate) fn told_by(alloc: Global, harbor: &MemHarbor) -> Result<String, AllocError> {
    let mut parts = Vec::new(alloc);
    parts.push(told_of(alloc, harbor.hung_up())?)?;
    for door in harbor.doors() {
        parts.push(told_of(alloc, door.served())?)?;
    }
    sorted_parts(alloc, parts)
}
