// Status bytes, and how they change.
ghost use Rattle.std.specs.Prelude.{◌≡◌, slice_index_or, slice_set};
ghost use Rattle.tip_store.specs.Status.{state_for, status_of, after, moved};

use tip_shelf::shelf::State;

/// What may befall a strip.
#[derive(Clone, Copy, PartialEq, Eq, Debug)]
pub enum Event {
    /// Its device is pulled.
    Pull,
    /// Its device is fitted.
    Fit,
    /// It is erased.
    Erase,
    /// It is restored.
    Restore,
}

/// The status byte of an absent strip, as it is written.
pub const ABSENT: u8 = 0;

/// The status byte of a blank strip.
pub const BLANK: u8 = 1;

/// The status byte of a held strip.
pub const HELD: u8 = 2;

/// What a status byte says. Any byte but the two for held and blank strips says that the strip is absent.
pub fn state_for(status: u8) -> State
    ensures { result ≡ state_for status }
{
    match status {
        HELD => State::Held,
        BLANK => State::Blank,
        _ => State::Absent,
    }
}

/// The status byte for a state.
pub fn status_of(state: State) -> u8
    ensures { result ≡ status_of state }
{
    match state {
        State::Held => HELD,
        State::Blank => BLANK,
        State::Absent => ABSENT,
    }
}

impl Event {
    /// The state of a strip after the event. What no arm names stays.
    pub fn after(self, state: State) -> State
        ensures { result ≡ after state self }
    {
        match (state, self) {
            (_, Event::Pull) => State::Absent,
            (State::Absent, Event::Fit) => State::Blank,
            (State::Held | State::Blank, Event::Erase) => State::Blank,
            (State::Blank, Event::Restore) => State::Held,
            (same, _) => same,
        }
    }
}

/// What the status byte at this index says. Beyond the last byte strips are absent.
pub fn state_at(bytes: &[u8], index: usize) -> State
    ensures { result ≡ state_for (slice_index_or bytes.now index 0) }
{
    bytes
        .get(index)
        .map_or(State::Absent, |status| state_for(*status))
}

/// Changes the status byte at this index by an event. Beyond the last byte nothing changes.
pub fn advance(bytes: &mut [u8], index: usize, event: Event)
    ensures { bytes.new ≡ slice_set bytes.old index (moved event (slice_index_or bytes.old index 0)) }
{
    if index < bytes.len() {
        bytes[index] = status_of(event.after(state_for(bytes[index])));
    }
}
