// The fault shelf, over any serviced shelf.
ghost use Rattle.std.specs.Prelude.{◌≡◌, ◌-◌, ◌≤◌, ◌++◌, [], ◌∷◌, MatchResult};
ghost use Rattle.tip_code.specs.Stops.{Stopped};
ghost use Rattle.tip_element.specs.Laws.{Exactly};
ghost use Rattle.tip_fault.specs.Faults.{below_of, losses_of, accesses_of, faults_of, meaning_of, PlanStop, next_access, pulls_for, Faulted};
ghost use Rattle.tip_fault.specs.Laws.{unsteady_sound, unsteady_devices};
ghost use Rattle.tip_shelf.specs.Calls.{InRange, Loads};
ghost use Rattle.tip_shelf.specs.Performing.{Performed, Series};
ghost use Rattle.tip_shelf.specs.Meaning.{Within};

use super::losses::{Loss, Losses};
use tip_code::geometry::Geometry;
use tip_code::stop::Stop;
use tip_element::element::Element;
use tip_shelf::shelf::{Out, Serviced, Shelf, State};

/// Pulls the device of a planned loss where it is planned for this access.
#[tactic(auto, using(crate::proofs::Pulling::pulls_one, crate::proofs::Pulling::pulls_none))]
fn pull_if_planned<S: Serviced>(below: &mut S, loss: Loss, access: u32)
    ensures calls { Series (Performed S.meaning S.performs) below.old (pulls_for access (loss ∷ [])) below.new }
    ensures lent { S.lent below.new ≡ S.lent below.old }
{
    if loss.access == access {
        below.pull(loss.device);
    }
}

/// Pulls each device that is planned for this access, in the order of the plan.
#[tactic(auto, using(tip_shelf::proofs::Series::series_none, crate::proofs::Pulling::pulls_more))]
fn pull_planned<S: Serviced>(below: &mut S, planned: &[Loss], access: u32)
    ensures calls { Series (Performed S.meaning S.performs) below.old (pulls_for access planned.now) below.new }
    ensures lent { S.lent below.new ≡ S.lent below.old }
{
    for loss in planned {
        pull_if_planned(below, *loss, access);
    }
}

/// A shelf that loses devices of the shelf below as planned. Each get, put, erase and restore that is in range is an access. Accesses
/// are numbered from 1, and from 4,294,967,295 on all have that number. Before an access goes down, each device that is planned for
/// its number is pulled.
#[derive(Drop)]
pub struct Fault<S> {
    below: S,
    losses: Losses,
    accesses: u32,
}

impl<S: Serviced> Fault<S> {
    /// The fault shelf over this one: no loss is planned, and no access counted.
    pub fn over(below: S) -> Fault<S>
        ensures below { below_of result ≡ below }
        ensures lent { S.lent (below_of result) ≡ S.lent below }
        ensures planned { losses_of result ≡ [] }
        ensures accesses { accesses_of result ≡ 0 }
    {
        Fault {
            below,
            losses: Losses::none(),
            accesses: 0,
        }
    }

    /// How many accesses were counted.
    pub fn accesses(&self) -> u32
        ensures { result ≡ accesses_of self.now }
    {
        self.accesses
    }

    /// The planned losses, in the order of the plan.
    pub fn planned(&self) -> &[Loss]
        ensures { result.now ≡ losses_of self.now }
    {
        self.losses.planned()
    }

    /// Plans a loss: the device is pulled before the access of this number. No access has the number 0, and a loss stays planned.
    /// Stop 4: sixteen losses are planned already. Stop 12: the device is above p.
    #[tactic(auto, using(crate::proofs::Stopping::plan_full, crate::proofs::Stopping::plan_no_device))]
    pub fn plan(&mut self, access: u32, device: usize) -> Result<(), Stop>
        ensures stop { Stopped (PlanStop (faults_of S.meaning self.old) device) result }
        ensures planned { MatchResult result
            (λ _. losses_of self.new ≡ losses_of self.old ++ record { access = access; device = device } ∷ [])
            (λ _. losses_of self.new ≡ losses_of self.old) }
        ensures accesses { accesses_of self.new ≡ accesses_of self.old }
        ensures below { below_of self.new ≡ below_of self.old }
    {
        if self.losses.is_full() {
            return Err(Stop::Losses);
        }
        if !self.has_device(device) {
            return Err(Stop::Column);
        }
        self.losses.add(access, device);
        Ok(())
    }

    /// Counts an access, and pulls each device that is planned for it.
    fn begin_access(&mut self)
        ensures counted { accesses_of self.new ≡ next_access (accesses_of self.old) }
        ensures planned { losses_of self.new ≡ losses_of self.old }
        ensures calls { Series (Performed S.meaning S.performs) self.old.below
            (pulls_for (accesses_of self.new) (losses_of self.old)) self.new.below }
        ensures lent { S.lent self.new.below ≡ S.lent self.old.below }
    {
        let Fault {
            below,
            losses,
            accesses,
        } = self;
        *accesses = accesses.saturating_add(1);
        pull_planned(below, losses.planned(), *accesses);
    }

    /// Whether there is such a device.
    fn has_device(&self, device: usize) -> bool
        ensures { Exactly result (device ≤ (S.meaning self.now.below).prime) }
    {
        device <= self.geometry().prime().number
    }

    /// How many elements a held strip has.
    fn rows(&self) -> usize
        ensures { result ≡ (S.meaning self.now.below).prime - 1 }
    {
        self.geometry().prime().number - 1
    }

    /// Whether there is a strip at this stripe and column.
    fn has_strip(&self, stripe: usize, column: usize) -> bool
        ensures { Exactly result (Within (S.meaning self.now.below) stripe column) }
    {
        let geometry = self.geometry();
        stripe < geometry.stripes() && column <= geometry.prime().number
    }

    /// Whether there is a cell at this stripe, column and row.
    fn has_cell(&self, stripe: usize, column: usize, row: usize) -> bool
        ensures { Exactly result (InRange (S.meaning self.now.below) stripe column row) }
    {
        self.has_strip(stripe, column) && row < self.rows()
    }

    /// Whether there is a strip at this stripe and column, and the elements are as many as it has rows.
    fn loads(&self, stripe: usize, column: usize, elements: &[S::Element]) -> bool
        ensures { Exactly result (Loads (S.meaning self.now.below) stripe column elements.now) }
    {
        self.has_strip(stripe, column) && elements.len() == self.rows()
    }
}

impl<S: Serviced> Shelf for Fault<S> {
    type Element = S::Element;

    ghost meaning = { meaning_of S.meaning };

    ghost lent = { λ s. S.lent (below_of s) };

    ghost performs = { Faulted S.meaning (Performed S.meaning S.performs) };

    #[tactic(auto, using(crate::proofs::Unsteady::shaped_unsteady))]
    fn geometry(&self) -> Geometry {
        self.below.geometry()
    }

    /// Never: devices are pulled as planned.
    fn is_steady(&self) -> bool {
        false
    }

    /// Tells which of the three a strip is. That is no access.
    #[tactic(auto, using(crate::proofs::Unsteady::told_unsteady))]
    fn state(&mut self, stripe: usize, column: usize) -> State {
        self.below.state(stripe, column)
    }

    /// Gives the element at a row of a held strip. That is an access, where there is such a cell.
    #[tactic(auto, using(crate::proofs::Acts::got_beyond))]
    fn get(&mut self, stripe: usize, column: usize, row: usize) -> Result<S::Element, Out> {
        if !self.has_cell(stripe, column, row) {
            return Err(Out);
        }
        self.begin_access();
        self.below.get(stripe, column, row)
    }

    /// Sets one element of a held strip and no other. That is an access, where there is such a cell.
    #[tactic(auto, using(crate::proofs::Acts::put_beyond))]
    fn put(
        &mut self,
        stripe: usize,
        column: usize,
        row: usize,
        element: S::Element,
    ) -> Result<(), Out> {
        if !self.has_cell(stripe, column, row) {
            return Err(Out);
        }
        self.begin_access();
        self.below.put(stripe, column, row, element)
    }

    /// Makes a held or blank strip blank. That is an access, where there is such a strip.
    #[tactic(auto, using(crate::proofs::Acts::erased_beyond))]
    fn erase(&mut self, stripe: usize, column: usize) -> Result<(), Out> {
        if !self.has_strip(stripe, column) {
            return Err(Out);
        }
        self.begin_access();
        self.below.erase(stripe, column)
    }

    /// Makes a blank strip held, with exactly these elements, one for each row. That is an access, where there is such a strip and
    /// the elements are as many as it has rows.
    #[tactic(auto, using(crate::proofs::Acts::restored_beyond))]
    fn restore(
        &mut self,
        stripe: usize,
        column: usize,
        elements: &[S::Element],
    ) -> Result<(), Out> {
        if !self.loads(stripe, column, elements) {
            return Err(Out);
        }
        self.begin_access();
        self.below.restore(stripe, column, elements)
    }

    ghost sound = { λ s. unsteady_sound (S.sound (below_of s)) };
}

impl<S: Serviced> Serviced for Fault<S> {
    /// Makes every strip of the device absent. That is no access.
    #[tactic(auto, using(crate::proofs::Unsteady::pulled_unsteady))]
    fn pull(&mut self, device: usize) {
        self.below.pull(device)
    }

    /// Says yes, and makes each absent strip of the device blank; or says no. That is no access.
    #[tactic(auto, using(crate::proofs::Unsteady::fitted_unsteady))]
    fn fit(&mut self, device: usize) -> bool {
        self.below.fit(device)
    }

    ghost devices = { λ s. unsteady_devices (S.devices (below_of s)) };
}
