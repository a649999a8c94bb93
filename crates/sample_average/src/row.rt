//! What a report has of one temperature slot of one sample in one epoch.

/// One row. Energies are in units of the coupling, from -3V to 3V for V sites; the overlap of both
/// replicas is a sum over the sites, from -V to V.
#[derive(Clone, Copy, Debug, PartialEq, Eq)]
pub struct Row {
    pub epoch: u64,
    pub sample: u32,
    pub slot: u32,
    pub first_energy: i32,
    pub second_energy: i32,
    pub overlap: i32,
    pub first_replica: u8,
    pub second_replica: u8,
}

impl Row {
    /// A row of zeros.
    pub(crate) fn blank() -> Row {
        Row {
            epoch: 0,
            sample: 0,
            slot: 0,
            first_energy: 0,
            second_energy: 0,
            overlap: 0,
            first_replica: 0,
            second_replica: 0,
        }
    }
}
