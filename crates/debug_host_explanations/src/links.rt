//! What may be done about a port and its links.

use std::alloc::{AllocError, Global};

/// What ended a command that uses a port.
#[derive(Clone, Copy)]
pub enum PortFault {
    /// A server couldn't open this port, or one of its doors failed later.
    Serving { port: u16 },
    /// A client couldn't dial this port, or its link failed.
    Dialling { port: u16 },
    /// The host closed before all was answered.
    Closed,
}

/// What may be done about a port that can't be used, or a host that closed.
///
/// # Errors
///
/// There is no memory for the line.
pub fn link_lines(alloc: Global, fault: PortFault) -> Result<String, AllocError> {
    match fault {
        PortFault::Serving { port } => format!(in alloc;
            "  port {port} of 127.0.0.1 can't be served: where another program has it, '--port P' names another\n"
        ),
        PortFault::Dialling { port } => format!(in alloc;
            "  no host answers at port {port} of 127.0.0.1, or the link to it broke: 'debug_host serve --port {port} SCRIPT...' starts one\n"
        ),
        PortFault::Closed => String::from_str(
            alloc,
            "  a host closes once its program has ended: 'debug_host serve --wait' lets none begin before a client says so\n",
        ),
    }
}
