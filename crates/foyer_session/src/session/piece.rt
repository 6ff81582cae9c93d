//! The pieces that a session handed out.

ghost use Rattle.std.specs.Prelude.{◌≡◌, ◌<◌, ◌++◌, ◌∷◌, [], Some, None, IfNone, IfSome, length, slice_get, vec_len, vec_capacity};

use foyer_core::Piece;

/// Hands out a new piece, for which there is room, and returns its number.
pub fn hand_out<K: Drop, V: Drop, P: Drop>(
    pieces: &mut Vec<Piece<K, V, P>>,
    piece: Piece<K, V, P>,
) -> u64
    requires room { vec_len pieces.old < vec_capacity pieces.old }
    ensures number { result ≡ length pieces.old.items }
    ensures pieces { pieces.new.items ≡ pieces.old.items ++ piece ∷ [] }
    ensures capacity { vec_capacity pieces.new ≡ vec_capacity pieces.old }
{
    let number = pieces.len() as u64;
    pieces.push_reserved(piece);
    number
}

/// Returns the piece of a number, if it is held.
pub fn held<K: Drop, V: Drop, P: Drop>(
    pieces: &[Piece<K, V, P>],
    number: u64,
) -> Option<&Piece<K, V, P>>
    ensures some { IfSome result (λ piece. slice_get pieces.now number ≡ Some piece.now) }
    ensures none { IfNone result (slice_get pieces.now number ≡ None) }
{
    pieces.get(number as usize)
}
