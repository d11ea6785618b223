// The calls of an array over the memory shelf. Each makes its array anew, over buffers that it is lent for the call.
// Their parameters are called alike: `p` and `stripes` are the prime and the stripe count, `cells` and `statuses` the
// cells and the status bytes of all stripes, as `tip_memory::MemoryShelf` has them, and `work` is a work buffer of at
// least 4(p + 1)(p + 1) elements. A refused call gives the number of its stop. An accepted one gives 0, and puts its
// answer where the caller wants it.
ghost use Rattle.std.specs.Prelude.{◌≡◌, length, MatchResult};
ghost use Rattle.tip_code.specs.Geometry.{prime_of, stripes_of};
ghost use Rattle.tip_code.specs.Stops.{number, Stopped};
ghost use Rattle.tip_element.specs.Slices.{AllZero};
ghost use Rattle.tip_element.specs.Words.{no_word};
ghost use Rattle.tip_memory.specs.Memory.{LengthStop};

use super::status;
use tip_array::array::Array;
use tip_code::geometry::Geometry;
use tip_code::stop::Stop;
use tip_element::slices::clear;
use tip_element::word::Word;
use tip_memory::MemoryShelf;

/// Puts an answer where the caller wants it, and gives 0. Of a refused call it gives the number of the stop, and leaves
/// what is there alone.
fn answer<T: Copy>(outcome: Result<T, Stop>, to: &mut T) -> u8
    ensures { MatchResult outcome
        (λ a. (result ≡ 0) × (to.new ≡ a))
        (λ s. (result ≡ number s) × (to.new ≡ to.old)) }
{
    match outcome {
        Ok(value) => {
            *to = value;
            0
        }
        Err(stop) => stop.number(),
    }
}

/// The array over lent buffers. Stop 3: one of them has another length than the array needs.
fn array_over<'a>(
    geometry: &'a Geometry,
    cells: &'a mut [Word],
    statuses: &'a mut [u8],
) -> Result<Array<MemoryShelf<'a, Word>>, Stop>
    ensures { Stopped (LengthStop (prime_of geometry.now) (stripes_of geometry.now) (length cells.old)
        (length statuses.old)) result }
{
    Ok(Array::over(MemoryShelf::new(geometry, cells, statuses)?))
}

/// Formats an array.
fn format(
    p: usize,
    stripes: usize,
    cells: &mut [Word],
    statuses: &mut [u8],
    work: &mut [Word],
) -> Result<usize, Stop> {
    let geometry = Geometry::new(p, stripes)?;
    array_over(&geometry, cells, statuses)?.format(work)
}

/// Reads a place of an array.
fn read(
    p: usize,
    stripes: usize,
    cells: &mut [Word],
    statuses: &mut [u8],
    stripe: usize,
    place: usize,
    work: &mut [Word],
) -> Result<Word, Stop> {
    let geometry = Geometry::new(p, stripes)?;
    array_over(&geometry, cells, statuses)?.read(stripe, place, work)
}

/// Writes a place of an array.
fn write(
    p: usize,
    stripes: usize,
    cells: &mut [Word],
    statuses: &mut [u8],
    stripe: usize,
    place: usize,
    element: Word,
    work: &mut [Word],
) -> Result<usize, Stop> {
    let geometry = Geometry::new(p, stripes)?;
    array_over(&geometry, cells, statuses)?.write(stripe, place, element, work)
}

/// Rebuilds a stripe of an array.
fn rebuild(
    p: usize,
    stripes: usize,
    cells: &mut [Word],
    statuses: &mut [u8],
    stripe: usize,
    work: &mut [Word],
) -> Result<usize, Stop> {
    let geometry = Geometry::new(p, stripes)?;
    array_over(&geometry, cells, statuses)?.rebuild(stripe, work)
}

/// Pulls a device of an array.
fn pull(
    p: usize,
    stripes: usize,
    cells: &mut [Word],
    statuses: &mut [u8],
    device: usize,
) -> Result<(), Stop> {
    let geometry = Geometry::new(p, stripes)?;
    array_over(&geometry, cells, statuses)?.pull(device)
}

/// Fits a device of an array.
fn fit(
    p: usize,
    stripes: usize,
    cells: &mut [Word],
    statuses: &mut [u8],
    device: usize,
) -> Result<bool, Stop> {
    let geometry = Geometry::new(p, stripes)?;
    array_over(&geometry, cells, statuses)?.fit(device)
}

/// Formats an array: each strip that is not absent is held, with zeros. `out` is then how many strips are out. Of
/// `work` the first 4(p + 1)(p + 1) elements become zero, and those beyond are left alone. At a stop all is left alone.
#[unsafe(no_mangle)]
pub extern "C" fn tip_array_format(
    p: usize,
    stripes: usize,
    cells: &mut [Word],
    statuses: &mut [u8],
    work: &mut [Word],
    out: &mut usize,
) -> u8 {
    answer(format(p, stripes, cells, statuses, work), out)
}

/// Reads place `place` of stripe `stripe` of an array into `element`. `cells` and `statuses` are left alone. Of `work`
/// the first 4(p + 1)(p + 1) elements become zero, at stop 13 too, and those beyond are left alone. At a stop `element`
/// is left alone, and below stop 13 `work`.
#[unsafe(no_mangle)]
pub extern "C" fn tip_array_read(
    p: usize,
    stripes: usize,
    cells: &mut [Word],
    statuses: &mut [u8],
    stripe: usize,
    place: usize,
    work: &mut [Word],
    element: &mut Word,
) -> u8 {
    answer(
        read(p, stripes, cells, statuses, stripe, place, work),
        element,
    )
}

/// Writes `element` to place `place` of stripe `stripe` of an array: the cell of the place and its three parity cells
/// change, each where its strip is held. `out` is then how many strips of the stripe are out. All other cells and
/// `statuses` are left alone, and `work` becomes what it does in `tip_array_read`. At a stop `cells` and `out` are left
/// alone.
#[unsafe(no_mangle)]
pub extern "C" fn tip_array_write(
    p: usize,
    stripes: usize,
    cells: &mut [Word],
    statuses: &mut [u8],
    stripe: usize,
    place: usize,
    element: Word,
    work: &mut [Word],
    out: &mut usize,
) -> u8 {
    answer(
        write(p, stripes, cells, statuses, stripe, place, element, work),
        out,
    )
}

/// Restores the blank strips of stripe `stripe` of an array: their cells and status bytes change. `rebuilt` is then how
/// many there were. All other strips are left alone, and `work` becomes what it does in `tip_array_read`. At a stop
/// `cells`, `statuses` and `rebuilt` are left alone.
#[unsafe(no_mangle)]
pub extern "C" fn tip_array_rebuild(
    p: usize,
    stripes: usize,
    cells: &mut [Word],
    statuses: &mut [u8],
    stripe: usize,
    work: &mut [Word],
    rebuilt: &mut usize,
) -> u8 {
    answer(rebuild(p, stripes, cells, statuses, stripe, work), rebuilt)
}

/// Takes device `device` from an array: its strips are absent. All other status bytes, and `cells`, are left alone. At
/// a stop all is left alone.
#[unsafe(no_mangle)]
pub extern "C" fn tip_array_pull(
    p: usize,
    stripes: usize,
    cells: &mut [Word],
    statuses: &mut [u8],
    device: usize,
) -> u8 {
    status(pull(p, stripes, cells, statuses, device))
}

/// Puts device `device` into an array: its absent strips are blank, and `fitted` says whether it was taken. All other
/// status bytes, and `cells`, are left alone. At a stop all is left alone.
#[unsafe(no_mangle)]
pub extern "C" fn tip_array_fit(
    p: usize,
    stripes: usize,
    cells: &mut [Word],
    statuses: &mut [u8],
    device: usize,
    fitted: &mut bool,
) -> u8 {
    answer(fit(p, stripes, cells, statuses, device), fitted)
}

/// Makes every element of `work` zero, as a call with a work buffer does at its end, so that this can be timed alone.
#[unsafe(no_mangle)]
pub extern "C" fn tip_clear(work: &mut [Word])
    ensures { AllZero no_word work.new }
{
    clear(work)
}
