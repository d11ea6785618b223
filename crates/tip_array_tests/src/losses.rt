// Devices that are lost at every access of a list of calls in turn.
use crate::calls::{check_call, check_format};
use crate::scoreboard::{Scoreboard, check_held};
use crate::shape::Shape;
use crate::stores::Store;
use std::alloc::Global;
use std::process::Abort;
use std::test::Fail;
use tip_array::array::Array;
use tip_array::calls::Call;
use tip_code::geometry::Geometry;
use tip_element::word::Word;
use tip_fault::fault::Fault;
use tip_memory::MemoryShelf;

/// A list of calls of every kind: the strip of a place is lost, read and written while it is out, and rebuilt.
fn calls(heap: Global, shape: Shape) -> Result<Vec<Call<Word>>, Fail> {
    let place = shape.places() / 3;
    let last = shape.places().saturating_sub(1);
    let device = shape.column_of(place).ok_or("no such place")?;
    let write = |stripe, place, number| Call::Write {
        stripe,
        place,
        element: Word(number),
    };
    Ok(vec![in heap;
        write(0, place, 0x11),
        write(0, last, 0x22),
        write(1, place, 0x44),
        Call::Read {
            stripe: 0,
            place: last
        },
        Call::Pull { device },
        Call::Read { stripe: 0, place },
        write(0, place, 0x88),
        Call::Fit { device },
        Call::Rebuild { stripe: 0 },
        Call::Check { stripe: 0 },
        Call::Read { stripe: 1, place },
    ]?)
}

/// Formats an array in memory and makes the calls while it loses devices as planned, and gives the number of accesses.
fn check_list(
    rt: &impl Abort,
    heap: Global,
    shape: Shape,
    losses: &[(u32, usize)],
) -> Result<u32, Fail> {
    let geometry = Geometry::new(shape.p, shape.stripes)?;
    let mut store: Store<Word> = Store::blank(heap, shape)?;
    let shelf = MemoryShelf::new(&geometry, &mut store.cells, &mut store.statuses)?;
    let mut fault = Fault::over(shelf);
    for (access, device) in losses {
        fault.plan(*access, *device)?;
    }
    let mut array = Array::over(fault);
    let mut board = Scoreboard::zero(heap, shape)?;
    check_format(rt, heap, &mut array, shape)?;
    for call in &calls(heap, shape)? {
        let _outcome = check_call(rt, heap, &mut array, &mut board, call, shape.work())?;
    }
    let mut fault = array.into_shelf();
    let count = fault.accesses();
    check_held(rt, heap, &mut fault, &board)?;
    Ok(count)
}

/// The list while so many devices, from this one on, are lost at one access.
fn check_losses(
    rt: &impl Abort,
    heap: Global,
    shape: Shape,
    access: u32,
    device: usize,
    count: usize,
) -> Result<(), Fail> {
    let mut losses = Vec::new(heap);
    for lost in device..device.saturating_add(count) {
        let turned = lost.checked_rem(shape.columns()).unwrap_or(0);
        losses.push((access, turned))?;
    }
    check_list(rt, heap, shape, &losses)?;
    Ok(())
}

/// Wherever in a list of calls a device is lost, or two or four are, each call still answers what the scoreboard and
/// the states of the strips say, and at the end the strips that are held are those of the scoreboard.
#[test]
fn devices_are_lost_at_every_access(rt: HostRuntime) -> Result<(), Fail> {
    let heap = rt.alloc();
    for p in [3, 5] {
        let shape = Shape {
            p,
            stripes: 2,
            turns: false,
        };
        let last = check_list(&rt, heap, shape, &[])?;
        assert!(rt; last > 50, "{last} accesses");
        for access in 1..=last {
            for device in 0..shape.columns() {
                check_losses(&rt, heap, shape, access, device, 1)?;
            }
            let device = (access as usize).checked_rem(shape.columns()).unwrap_or(0);
            check_losses(&rt, heap, shape, access, device, 2)?;
            check_losses(&rt, heap, shape, access, device, 4)?;
        }
    }
    Ok(())
}
