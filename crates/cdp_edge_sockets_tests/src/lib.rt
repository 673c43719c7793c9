//! A test of what `cdp_edge_sockets` has, over the loopback. It holds nothing else.
#![tactic(auto)]

#[cfg(test)]
mod loopback;
