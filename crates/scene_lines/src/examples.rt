//! Lines cut out of bytes, worked out by hand.

ghost use Rattle.std.specs.Prelude.{◌≡◌, ◌+◌, [], ◌∷◌, ◌++◌, true, false, codes, replicate};
ghost use Rattle.scene_lines.specs.Next.{answer_at};
ghost use Rattle.scene_lines.specs.SceneLines.{lines};
ghost use Rattle.scene_lines.specs.declared.TheConstants.{LONGEST_LINE};

use crate::Next;

/// Bytes with their lines and the answers at them, computed from the definitions. It does nothing.
pub fn worked_lines()
    ensures nothing { lines (codes "") true ≡ [] }
    ensures last_unended { lines (codes "a\nb\r") true ≡ codes "a" ∷ codes "b" ∷ [] }
    ensures not_yet_ended { lines (codes "a\nb\r") false ≡ codes "a" ∷ [] }
    ensures blank { lines (codes "a\n\nc\n") true ≡ codes "a" ∷ [] ∷ codes "c" ∷ [] }
    ensures one_return { lines (codes "a\r\r\n\r\n") true ≡ codes "a\r" ∷ [] ∷ [] }
    ensures end { answer_at 2 2 (codes "") ≡ Next.End }
    ensures too_many { answer_at 2 2 (codes "\n") ≡ Next.TooMany }
    ensures within { answer_at 2 1 (codes "\n") ≡ Next.Line }
    ensures longest { answer_at 2 1 (replicate LONGEST_LINE 97 ++ codes "\r\nb\n") ≡ Next.Line }
    ensures long { answer_at 2 1 (replicate (LONGEST_LINE + 1) 97 ++ codes "\nb\n") ≡ Next.Long }
    ensures too_many_first { answer_at 2 2 (replicate (LONGEST_LINE + 1) 97) ≡ Next.TooMany }
{}
