// What is written is read again. Each law is the contract of a function that does nothing.
ghost use Rattle.std.specs.Prelude.{◌≡◌, ◌<◌, ℕ, List, All, Some, Ok};
ghost use Rattle.instruction_table.specs.declared.row.Row.{Row};
ghost use Rattle.row_code.specs.{declared.image.Image.Image, RowFields.IsRow, RowBytes.bytes_of, RowOperands.row_in};
ghost use Rattle.row_code.specs.{Image.IsImage, Image.image_bytes, Reading.image_of};

/// A law: if a row is encoded as bytes, the bytes are read as the same row.
pub fn row_again()
    ensures { (row : Row) → IsRow row → row_in (bytes_of row) ≡ Some row }
{}

/// A law: if an image is encoded as bytes, the bytes are read as the same image.
pub fn image_again()
    ensures { (i : Image) → IsImage i → image_of (image_bytes i) ≡ Ok i }
{}

/// A law: if bytes are read as an image, they are the encoding of this image.
pub fn one_spelling()
    ensures { (bytes : List ℕ) (i : Image) → All (λ byte. byte < 256) bytes →
        image_of bytes ≡ Ok i → bytes ≡ image_bytes i }
{}
