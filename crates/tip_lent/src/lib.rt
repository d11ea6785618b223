//! Shelves over memory that a caller lends: code that is written once for every shelf, and what the caller's bytes are after it.
#![tactic(auto)]

ghost use Rattle.std.specs.Prelude.{◌≡◌, IfOk};
ghost use Rattle.tip_code.specs.Geometry.{prime_of};
ghost use Rattle.tip_image.specs.Image.{image};
ghost use Rattle.tip_lent.specs.Exchanges.{Exchanged, Holds};
ghost use Rattle.tip_rotated.specs.Turning.{rotated, turned};

use tip_code::geometry::Geometry;
use tip_element::word::Word;
use tip_image::ImageShelf;
use tip_rotated::Rotated;
use tip_shelf::shelf::{Out, Shelf};

/// Puts an element in the place of another, which is given, on any shelf.
#[tactic(auto, using(crate::proofs::Exchanging::exchanged, crate::proofs::Exchanging::nothing_got, crate::proofs::Exchanging::nothing_put))]
pub fn exchange<S: Shelf>(
    shelf: &mut S,
    stripe: usize,
    column: usize,
    row: usize,
    element: S::Element,
) -> Result<S::Element, Out>
    ensures act { Exchanged (S.meaning shelf.old) (S.meaning shelf.new) stripe column row element result }
    ensures lent { S.lent shelf.new ≡ S.lent shelf.old }
{
    let old = shelf.get(stripe, column, row)?;
    shelf.put(stripe, column, row, element)?;
    Ok(old)
}

/// Puts a word in the place of another in an image. Where the image has another length than its array, all its strips are out.
pub fn exchange_in_image(
    geometry: Geometry,
    bytes: &mut [u8],
    stripe: usize,
    column: usize,
    row: usize,
    word: Word,
) -> Result<Word, Out>
    ensures strips { Exchanged (image geometry bytes.old) (image geometry bytes.new) stripe column row word result }
    ensures bytes { IfOk result (λ _. Holds (prime_of geometry) bytes.new stripe column row word) }
{
    let mut shelf = ImageShelf::over(&geometry, bytes);
    exchange(&mut shelf, stripe, column, row, word)
}

/// The same on any shelf, seen with its columns turned from stripe to stripe.
pub fn exchange_turned<S: Shelf>(
    shelf: &mut S,
    stripe: usize,
    column: usize,
    row: usize,
    element: S::Element,
) -> Result<S::Element, Out>
    ensures act { Exchanged (rotated (S.meaning shelf.old)) (rotated (S.meaning shelf.new)) stripe column row element result }
    ensures lent { S.lent shelf.new ≡ S.lent shelf.old }
{
    let mut turned = Rotated { below: shelf };
    exchange(&mut turned, stripe, column, row, element)
}

/// The same in an image whose columns are turned from stripe to stripe.
pub fn exchange_in_turned_image(
    geometry: Geometry,
    bytes: &mut [u8],
    stripe: usize,
    column: usize,
    row: usize,
    word: Word,
) -> Result<Word, Out>
    ensures strips { Exchanged (rotated (image geometry bytes.old)) (rotated (image geometry bytes.new)) stripe column row word result }
    ensures bytes { IfOk result (λ _. Holds (prime_of geometry) bytes.new stripe (turned (prime_of geometry) stripe column) row word) }
{
    let mut shelf = ImageShelf::over(&geometry, bytes);
    exchange_turned(&mut shelf, stripe, column, row, word)
}
