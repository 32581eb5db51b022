// What holds of the lines of every stream.

ghost use Rattle.std.specs.Prelude.{◌≡◌, ◌≤◌, ◌+◌, ℕ, List, [], ◌++◌, length};
ghost use Rattle.da_base.specs.Words.{Bytes};
ghost use Rattle.da_tabline.specs.Lines.{AreLines, IsLineCut, Use, after_feed, after_take, after_uses, bytes_fed, cutter_after, line_cut, lines_taken, new_cutter};

/// Bytes are whole lines and an open line in one way alone.
pub fn a_text_has_one_cut()
    ensures { (bytes : Bytes) (lines others : List Bytes) (rest other : Bytes) → AreLines bytes lines rest → AreLines bytes others other
        → (lines ≡ others) × (rest ≡ other) }
{}

/// What bytes are cut into are their whole lines and their open line, up to the first line that is too long.
pub fn the_cut_is_of_whole_lines()
    ensures { (max : ℕ) (bytes : Bytes) → IsLineCut max bytes (line_cut max bytes) }
{}

/// In whatever pieces a stream is fed, and whenever lines are taken, the lines taken, those that can be taken and the
/// open line are what all bytes fed are cut into, and too long a line was told of exactly where there is one.
pub fn any_cuts_give_the_same_lines()
    ensures { (max : ℕ) (uses : List Use) →
        (lines_taken (new_cutter max) uses ++ (after_uses (new_cutter max) uses).ready ≡ (line_cut max (bytes_fed uses)).lines)
        × ((after_uses (new_cutter max) uses).rest ≡ (line_cut max (bytes_fed uses)).rest)
        × ((after_uses (new_cutter max) uses).is_long ≡ (line_cut max (bytes_fed uses)).is_long) }
{}

/// What a cutter holds goes by the bytes fed from the first on, and by how many of their lines were taken.
pub fn a_cutter_goes_on()
    ensures begins { (max : ℕ) → cutter_after max [] 0 ≡ new_cutter max }
    ensures is_fed { (max n : ℕ) (bytes more : Bytes) → n ≤ length (line_cut max bytes).lines
        → after_feed (cutter_after max bytes n) more ≡ cutter_after max (bytes ++ more) n }
    ensures is_taken_from { (max n : ℕ) (bytes : Bytes) → after_take (cutter_after max bytes n) ≡ cutter_after max bytes (n + 1) }
{}
