//! What is known of cutting bytes into lines, and the limits of a scene, for proofs.

ghost use Rattle.std.specs.Prelude.{◌≡◌, ◌+◌, ◌<◌, ◌≤◌, ℕ, List, [], ◌∷◌, ◌++◌, length, take, true, false, Option};
ghost use Rattle.std.specs.List.{count_by};
ghost use Rattle.scene_lines.specs.declared.TheConstants.{BUFFER_LEN, LONGEST_LINE, MOST_LINES};
ghost use Rattle.scene_lines.specs.Reading.{coming};
ghost use Rattle.scene_lines.specs.SceneLines.{lines, is_feed, has_feed, length_ahead, line_ahead, past_line, IsPrefix};

/// What is known of cutting bytes into lines. It does nothing.
pub fn line_laws()
    // The lines of bytes are the first one, and those of the bytes past it.
    ensures first { (bytes : List ℕ) → 0 < length bytes → lines bytes true ≡ line_ahead bytes ∷ lines (past_line bytes) true }
    // The lines that have ended already stay as they are, whatever bytes follow.
    ensures prefix { (front whole : List ℕ) → IsPrefix front whole → IsPrefix (lines front false) (lines whole true) }
    // A line that has ended comes before those of the bytes behind its line feed.
    ensures ended { (bytes more : List ℕ) → has_feed bytes ≡ true → lines (take (length_ahead bytes + 1) bytes ++ more) false
        ≡ line_ahead bytes ∷ lines more false }
    // Bytes with no line feed have no line before the input has ended.
    ensures unended { (bytes : List ℕ) → has_feed bytes ≡ false → lines bytes false ≡ [] }
    // A line is shorter than its bytes by one carriage return at most, and ends at its first line feed.
    ensures near { (bytes : List ℕ) → length_ahead bytes ≤ length (line_ahead bytes) + 1 }
    ensures one_feed { (bytes : List ℕ) → count_by is_feed (take (length_ahead bytes + 1) bytes) ≤ 1 }
    // Bytes held in two parts come as the first part does before the other.
    ensures in_parts { (front back : List ℕ) (left : Option (List ℕ)) → coming (front ++ back) left ≡ coming front (coming back left) }
{}

/// The limits of a scene as numbers. It does nothing.
pub fn line_limits()
    ensures most { MOST_LINES ≡ 268435456 }
    ensures longest { LONGEST_LINE ≡ 1024 }
    ensures buffer { BUFFER_LEN ≡ 65536 }
{}
