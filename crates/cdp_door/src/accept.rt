//! The keys of the WebSocket handshake.

ghost use Rattle.std.specs.Prelude.{◌≡◌, IfOk};
ghost use Rattle.cdp_door.specs.Keys.{is_key, accept_of};

use base64::DecodeAllocError;
use base64::engine::general_purpose::STANDARD;
use sha1::Sha1;
use std::alloc::{AllocError, Global};

/// Whether a value of `Sec-WebSocket-Key` is the base64 of 16 bytes (RFC 6455, section 4.2.1).
pub fn is_key(alloc: Global, key: &[u8]) -> Result<bool, AllocError>
    ensures { IfOk result (λ is. is ≡ is_key key.now) }
{
    match STANDARD.decode(alloc, key) {
        Ok(bytes) => Ok(bytes.len() == 16),
        Err(DecodeAllocError::OutOfMemory) => Err(AllocError),
        Err(DecodeAllocError::DecodeError(_)) => Ok(false),
    }
}

/// The value of `Sec-WebSocket-Accept` that answers a key (RFC 6455, section 4.2.2).
pub fn accept_of(key: &[u8]) -> [u8; 28]
    ensures { result ≡ accept_of key.now }
{
    let mut hasher = Sha1::new();
    hasher.update(key);
    hasher.update(b"258EAFA5-E914-47DA-95CA-C5AB0DC85B11");
    let digest = hasher.finalize();
    let mut accept = [0; 28];
    STANDARD.encode_slice(&digest, &mut accept).unwrap();
    accept
}
