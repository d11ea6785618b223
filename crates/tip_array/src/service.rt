// Pulling and fitting devices.
ghost use Rattle.std.specs.Prelude.{◌≡◌, nat_le, IfErr, ◌<◌};
ghost use Rattle.tip_code.specs.Stops.{number};
ghost use Rattle.tip_array.specs.Steps.{PullStep, FitStep};
ghost use Rattle.tip_array.specs.Keeping.{OnlyPulls, OnlyFits};

use crate::array::Array;
use tip_code::stop::Stop;
use tip_shelf::shelf::{Serviced, Shelf};

/// Whether the shelf has the device.
fn has_device<S: Shelf>(shelf: &S, device: usize) -> bool
    ensures { result ≡ nat_le device (S.meaning shelf.now).prime }
{
    device <= shelf.geometry().prime().number
}

impl<S: Serviced> Array<S> {
    /// Takes a device away: each of its strips is absent.
    ///
    /// Stop 12: the device is above p. Then nothing changes.
    #[tactic(auto, using(crate::proofs::Servicing::pull_stopped, crate::proofs::Servicing::pull_done))]
    pub fn pull(&mut self, device: usize) -> Result<(), Stop>
        ensures step { PullStep (S.meaning self.old.shelf) (S.meaning self.new.shelf) device result }
        ensures keeps { OnlyPulls (S.meaning self.old.shelf) (S.meaning self.new.shelf) }
        ensures early { IfErr result (λ s. number s < 13 → self.new.shelf ≡ self.old.shelf) }
        ensures lent { S.lent self.new.shelf ≡ S.lent self.old.shelf }
    {
        if !has_device(&self.shelf, device) {
            return Err(Stop::Column);
        }
        self.shelf.pull(device);
        Ok(())
    }

    /// Puts a device in, if the shelf takes it, and answers whether it did: each of its absent strips is then blank.
    ///
    /// Stop 12: the device is above p. Then nothing changes.
    #[tactic(auto, using(crate::proofs::Servicing::fit_stopped, crate::proofs::Servicing::fit_done))]
    pub fn fit(&mut self, device: usize) -> Result<bool, Stop>
        ensures step { FitStep (S.meaning self.old.shelf) (S.meaning self.new.shelf) device result }
        ensures keeps { OnlyFits (S.meaning self.old.shelf) (S.meaning self.new.shelf) }
        ensures early { IfErr result (λ s. number s < 13 → self.new.shelf ≡ self.old.shelf) }
        ensures lent { S.lent self.new.shelf ≡ S.lent self.old.shelf }
    {
        if !has_device(&self.shelf, device) {
            return Err(Stop::Column);
        }
        Ok(self.shelf.fit(device))
    }
}
