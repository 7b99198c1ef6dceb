//! What the places by lines are.

ghost use Rattle.std.specs.Prelude.{◌≡◌, ℕ, ◌-◌, ◌<◌, ◌≤◌, ◌^◌, List, length};
ghost use Rattle.text_lines.specs.Lines.{line_starts, place_at, place_in};

/// The place of a byte by the lines of a text is its place in the text: `place_in` counts the ends of lines before it.
pub fn places_are_those_of_texts()
    ensures { (text : List ℕ) (file at : ℕ) → at ≤ length text → at < 2 ^ 32 - 1 → place_at (line_starts text) file at ≡ place_in text file at }
{}
