ghost use Rattle.std.specs.Prelude.{◌≡◌, List, ℕ, true, ◌≤◌, ◌++◌, length, map, take, codes};
ghost use Rattle.std.specs.List.{list_all};
ghost use Rattle.pictures.specs.{Page.escaped, Page.is_in_no_tag, Picture.lines_text, Picture.written_line};

/// A law: no byte of an escaped text begins or ends a tag, so the text stays inside its element.
pub fn an_escaped_text_ends_no_element()
    ensures { (text : List ℕ) → list_all is_in_no_tag (escaped text) ≡ true }
{}

/// A law: a line of a picture is at most as long as the picture is wide.
pub fn no_line_is_longer_than_the_width()
    ensures { (width : ℕ) (line : List ℕ) → length (take width line) ≤ width }
{}
