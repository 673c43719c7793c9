//! Tests of `cdp_client` over a link and a sink in memory. It holds nothing else.
#![tactic(auto)]

#[cfg(test)]
mod conversations;
