// Stops: the refusals of the whole product.
ghost use Rattle.std.specs.Prelude.{◌≡◌};
ghost use Rattle.tip_code.specs.Stops.{number};

use thiserror::Error;

/// Why a call was refused. A call that several stops fit gives the one with the lowest number.
#[derive(Clone, Copy, PartialEq, Eq, Debug, Error)]
pub enum Stop {
    /// The p asked for is not one of the ten primes.
    #[error("stop {number}: p is not one of the primes that are served", number = self.number())]
    Prime = 1,
    /// The stripe count is 0 or above 4,096.
    #[error("stop {number}: the stripe count is 0 or above 4096", number = self.number())]
    Stripes = 2,
    /// A buffer for cells, statuses, image or data has not exactly the needed length.
    #[error("stop {number}: a buffer has another length than is needed", number = self.number())]
    Length = 3,
    /// The fault shelf already has sixteen planned losses.
    #[error("stop {number}: sixteen losses are planned already", number = self.number())]
    Losses = 4,
    /// A field of a job list is cut off.
    #[error("stop {number}: a field is cut off", number = self.number())]
    Field = 5,
    /// The tag of a field is unknown.
    #[error("stop {number}: the tag of a field is unknown", number = self.number())]
    Tag = 6,
    /// The length of a body is not that of its tag.
    #[error("stop {number}: a body has another length than its tag asks", number = self.number())]
    Body = 7,
    /// Fewer than 12 bytes are left for an answer.
    #[error("stop {number}: fewer than 12 answer bytes are left", number = self.number())]
    Room = 8,
    /// The work buffer is too short.
    #[error("stop {number}: the work buffer is too short", number = self.number())]
    Work = 9,
    /// The stripe is not below the stripe count.
    #[error("stop {number}: the stripe is beyond the last", number = self.number())]
    Stripe = 10,
    /// The place is not below (p - 1)(p - 2).
    #[error("stop {number}: the place is beyond the last", number = self.number())]
    Place = 11,
    /// A device or a lost column is above p.
    #[error("stop {number}: a device or a lost column is above p", number = self.number())]
    Column = 12,
    /// More columns are lost than can be solved, or the call's own rule says so.
    #[error("stop {number}: too many columns are lost", number = self.number())]
    Lost = 13,
}

impl Stop {
    /// The number by which users know the stop, in answers, texts and C. A name says that better than a `From`.
    pub fn number(self) -> u8
        ensures { result ≡ number self }
    {
        self as u8
    }
}
