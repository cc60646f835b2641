// What the two sources over memory do to a piece.
ghost use Rattle.std.specs.Prelude.{◌≡◌, [], ◌++◌, ◌+◌, ◌-◌, ◌≤◌, ◌<◌, min, length, take, drop};

// Puts as many of the bytes from place `at` on as fit into the front of the piece, but no more than
// `most`, and says how many.
pub(crate) fn copy_front(bytes: &[u8], at: usize, piece: &mut [u8], most: usize) -> usize
    requires within { at ≤ length bytes.now }
    requires some { 0 < most }
    ensures count { result ≡ min (min (length piece.old) most) (length bytes.now - at) }
    ensures consumes { drop at bytes.now ≡ take result piece.new ++ drop (at + result) bytes.now }
    ensures end { result ≡ 0 → 0 < length piece.new → drop (at + result) bytes.now ≡ [] }
    ensures len { length piece.new ≡ length piece.old }
{
    let count = piece.len().min(most).min(bytes.len() - at);
    piece[..count].copy_from_slice(&bytes[at..at + count]);
    count
}
