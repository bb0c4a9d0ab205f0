// What was seen at a spot: one event, or the mark that sightings of it differed.
// Not an Option: a repeat was seen too, and a store says by an Option whether anything was.
#[derive(Clone, Copy, Debug, PartialEq, Eq)]
pub enum Sighting {
    Event(u32),
    Repeated,
}
