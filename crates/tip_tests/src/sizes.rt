// The sizes that an array may have.
use crate::reference::PRIMES;
use std::test::Fail;
use tip_code::geometry::Geometry;
use tip_code::stop::Stop;

/// What the geometry for these sizes says of itself.
fn sizes(p: usize, stripes: usize) -> Result<(usize, usize), Stop> {
    let geometry = Geometry::new(p, stripes)?;
    Ok((geometry.prime().number, geometry.stripes()))
}

#[test]
fn only_ten_primes_pass(rt: HostRuntime) {
    for p in 0..=300 {
        let wanted = if PRIMES.contains(&p) {
            Ok((p, 1))
        } else {
            Err(Stop::Prime)
        };
        assert_eq!(rt; sizes(p, 1), wanted, "{}", p);
    }
    let passed = (0..=300).filter(|p| sizes(*p, 1).is_ok()).count();
    assert_eq!(rt; passed, 10);
}

/// Of two stops that fit, the one with the lower number is given.
#[test]
fn other_primes_are_refused_first(rt: HostRuntime) {
    for p in [0, 1, 2, 4, 9, 33, 255, 256 + 3, (1 << 32) + 5, usize::MAX] {
        for stripes in [0, 1, 4096, 4097, usize::MAX] {
            assert_eq!(rt; sizes(p, stripes), Err(Stop::Prime), "{}", p);
        }
    }
    assert_eq!(rt; Stop::Prime.number(), 1);
}

#[test]
fn stripe_counts_have_bounds(rt: HostRuntime) {
    for p in PRIMES {
        for stripes in [1, 2, 255, 256, 257, 4095, 4096] {
            assert_eq!(rt; sizes(p, stripes), Ok((p, stripes)), "{}", p);
        }
        for stripes in [0, 4097, 65536, 65537, usize::MAX] {
            assert_eq!(rt; sizes(p, stripes), Err(Stop::Stripes), "{}", stripes);
        }
    }
    assert_eq!(rt; Stop::Stripes.number(), 2);
}

#[test]
fn cells_and_places_are_counted(rt: HostRuntime) -> Result<(), Fail> {
    for p in PRIMES {
        let geometry = Geometry::new(p, 4096)?;
        let rows = p.wrapping_sub(1);
        assert_eq!(rt;
            geometry.cells(),
            rows.wrapping_mul(p.wrapping_add(1)),
            "{}",
            p
        );
        assert_eq!(rt;
            geometry.places(),
            rows.wrapping_mul(p.wrapping_sub(2)),
            "{}",
            p
        );
    }
    Ok(())
}

/// A run of cells with its sizes beside it, as a store of columns in lent memory has them.
trait Store {
    /// How many stripes its cells make.
    fn stripes(&mut self) -> usize;
}

#[derive(Drop)]
struct Lent<'a> {
    geometry: Geometry,
    cells: &'a mut [u64],
}

#[derive(Drop)]
struct Layer<S> {
    below: S,
}

impl Store for Lent<'_> {
    fn stripes(&mut self) -> usize {
        let stripe = self.geometry.cells().max(1);
        self.cells.len() / stripe
    }
}

impl<S: Store> Store for Layer<S> {
    fn stripes(&mut self) -> usize {
        self.below.stripes()
    }
}

/// The store, where the buffer holds a stripe.
fn over(geometry: Geometry, cells: &mut [u64]) -> Result<Lent<'_>, Stop> {
    if cells.len() < geometry.cells() {
        return Err(Stop::Length);
    }
    Ok(Lent { geometry, cells })
}

/// A geometry stands by value beside lent memory, in an answer and under a layer.
#[test]
fn a_geometry_stands_beside_lent_cells(rt: HostRuntime) -> Result<(), Fail> {
    let mut cells = [0; 48];
    let below = over(Geometry::new(5, 2)?, &mut cells)?;
    assert_eq!(rt; Layer { below }.stripes(), 2);
    Ok(())
}
