// What texts mean. Each law is the contract of a function that does nothing.
ghost use Rattle.std.specs.Prelude.{◌≡◌, ℕ, List, Ok};
ghost use Rattle.row_code.specs.{declared.image.Image.Image, Image.IsImage};
ghost use Rattle.line_reader.specs.Listing.{canonical};
ghost use Rattle.assembler.specs.{Meaning.StandsFor, Passes.assembled};

/// A law: no text represents two images.
pub fn one_image()
    ensures { (text : List ℕ) (i j : Image) → StandsFor text i → StandsFor text j → i ≡ j }
{}

/// A law: the canonical text of an image represents this image.
pub fn canonical_means_image()
    ensures { (i : Image) → IsImage i → StandsFor (canonical i) i }
{}

/// A law: if the canonical text of an image is assembled, the result is this image.
pub fn canonical_is_assembled()
    ensures { (i : Image) → IsImage i → assembled (canonical i) ≡ Ok i }
{}
