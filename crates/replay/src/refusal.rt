// A refusal by number and index: as the file holds it, where it may be that of no error of the engine, and as a call gives it.
#[derive(Clone, Copy, Debug, PartialEq, Eq)]
pub struct Refusal {
    pub number: u32,
    pub index: usize,
}
