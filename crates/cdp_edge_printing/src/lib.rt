//! Printed texts, one after another, to a sink: each with LF in one write. `printed_lines` says which bytes they are.
#![tactic(auto)]

ghost use Rattle.std.specs.Prelude.{◌≡◌, IfOk, OnOk, OnErr, IsErrOf, string_bytes};
ghost use Rattle.cdp_edge.specs.Outside.{Rose, gains, GainsLess};
ghost use Rattle.cdp_edge_printing.specs.Printing.{printed_line, printed_lines};

use cdp_edge::{Sink, SinkFault, put};
use cdp_text::units::{Units, text_of};
use std::alloc::{AllocError, Global};

/// The line of a text.
fn line_of(alloc: Global, units: &[u16]) -> Result<String, AllocError>
    ensures { IfOk result (λ line. string_bytes line ≡ printed_line units.now) }
{
    let mut line = text_of(alloc, units)?;
    line.push('\n')?;
    Ok(line)
}

/// Offers a text with LF in one write.
fn put_text<O: Sink>(alloc: Global, out: &mut O, units: &[u16]) -> Result<(), SinkFault>
    ensures ok { OnOk result (O.content out.new ≡ gains (O.content out.old) (printed_line units.now)) }
    ensures err { OnErr result (GainsLess (O.content out.old) (O.content out.new) (printed_line units.now)) }
    ensures quiet { OnOk result (O.faults out.new ≡ O.faults out.old) }
    ensures memory { IsErrOf result SinkFault.Memory → O.faults out.new ≡ O.faults out.old }
    ensures failed { IsErrOf result SinkFault.Failed → Rose (O.faults out.old) (O.faults out.new) }
{
    match line_of(alloc, units) {
        Ok(line) => put(out, line.as_bytes()),
        Err(AllocError) => Err(SinkFault::Memory),
    }
}

/// Offers texts one by one, each with LF in one write.
///
/// # Errors
///
/// Those of [`put`]; `Memory` also where there is none for a line.
pub fn put_texts<O: Sink>(alloc: Global, out: &mut O, texts: &[Units]) -> Result<(), SinkFault>
    ensures ok { OnOk result (O.content out.new ≡ gains (O.content out.old) (printed_lines texts.now)) }
    ensures err { OnErr result (GainsLess (O.content out.old) (O.content out.new) (printed_lines texts.now)) }
    ensures quiet { OnOk result (O.faults out.new ≡ O.faults out.old) }
    ensures memory { IsErrOf result SinkFault.Memory → O.faults out.new ≡ O.faults out.old }
    ensures failed { IsErrOf result SinkFault.Failed → Rose (O.faults out.old) (O.faults out.new) }
{
    for text in texts {
        put_text(alloc, out, text.as_slice())?;
    }
    Ok(())
}
