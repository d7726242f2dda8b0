ghost use Rattle.std.specs.Prelude.{◌≡◌, ◌≤◌, ◌<◌, length, IfSome};
ghost use Rattle.gl_chunks.specs.Chunks.{chunk_head};

/// The id of a lawful chunk's message, the chunk's number, and how many chunks the message has: 1 to
/// 128, numbered from 0. Bytes that aren't a lawful chunk have none.
#[tactic(auto, unfolding(crate::specs::Chunks::chunk_head))]
pub fn chunk_head(bytes: &[u8]) -> Option<(u64, u8, u8)>
    ensures head { result ≡ chunk_head bytes.now }
    ensures lawful { IfSome result (λ head. (12 ≤ length bytes.now) × (head.1 < head.2)) }
{
    if bytes.len() < 12 || bytes[0] != 0x1e || bytes[1] != 0x0f {
        return None;
    }
    let number = bytes[10];
    let count = bytes[11];
    if count < 1 || 128 < count || count <= number {
        return None;
    }
    let (_, rest) = bytes.split_at(2);
    let (id, _) = rest.split_at(8);
    let id = u64::from_be_bytes([id[0], id[1], id[2], id[3], id[4], id[5], id[6], id[7]]);
    Some((id, number, count))
}
