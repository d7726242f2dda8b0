// The host and the port of a peer.
ghost use Rattle.std.specs.Prelude.{◌≡◌};
ghost use Rattle.std.specs.List.{before_first, after_first};
ghost use Rattle.gl_fields.specs.Peers.{is_colon, port_in, split_peer};

use gl_base::{bytes, whole};

/// The number of a port that these digits write.
fn port_in(digits: &[u8]) -> Option<u16>
    ensures { result ≡ port_in digits.now }
{
    if bytes::next_is(digits, b'0') {
        return None;
    }
    let port = whole::digits_within(0, digits, u16::MAX as u64)?;
    if port == 0 {
        return None;
    }
    Some(port as u16)
}

/// What stands before the first colon and behind it.
fn split_colon(text: &str) -> (&str, &str)
    ensures before { result.0.now ≡ before_first is_colon text.now }
    ensures behind { result.1.now ≡ after_first is_colon text.now }
{
    match text.split_once(':') {
        Some(parts) => parts,
        None => (text, ""),
    }
}

/// The host and the port of a peer, where its text is a host without `:`, then `:`, and then the decimal
/// of 1 to 65,535 without a zero before it. Of another text it is the whole text, and 0. It takes no
/// memory.
pub fn split_peer(text: &str) -> (&str, u16)
    ensures { (result.0.now, result.1) ≡ split_peer text.now }
{
    let (host, digits) = split_colon(text);
    match port_in(digits.as_bytes()) {
        Some(port) if !host.is_empty() => (host, port),
        _ => (text, 0),
    }
}
