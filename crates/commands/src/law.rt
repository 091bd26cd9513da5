ghost use Rattle.std.specs.Prelude.{◌≡◌, ◌++◌, ◌∷◌, [], List, ℕ};
ghost use Rattle.assembler.specs.Meaning.{SayInOrder, image_of};
ghost use Rattle.line_reader.specs.{declared.statement.Line.Line, Symbols.Name, Words.lines_of};
ghost use Rattle.schedule_reader.specs.Schedule.{finished_schedule};
ghost use Rattle.commands.specs.Rows.{AreSaid, IsRowListing, row_lines};

/// A law: the listing of a text has one line number for each row of the image, and this line of the text spells the row.
pub fn a_row_is_listed_with_the_line_that_says_it()
    ensures { (text : List ℕ) (lines : List (Line Name)) → SayInOrder 1 (lines_of text) lines
        → AreSaid (lines_of text) lines (image_of lines).rows (row_lines lines) }
{}

/// A law: a file has only one listing. Two texts that are listings of the same file are equal.
pub fn a_file_has_one_listing()
    ensures { (file a b : List ℕ) → IsRowListing file a → IsRowListing file b → a ≡ b }
{}

/// A law: an LF after a schedule doesn't change it. So what is written as a line is read as the same schedule.
pub fn a_line_of_a_schedule_is_the_schedule()
    ensures { (text : List ℕ) → finished_schedule (text ++ 10 ∷ []) ≡ finished_schedule text }
{}
