// Where a line is.
#![tactic(auto)]

use network::Plmn;

// The place of a line.
#[derive(Clone, Copy)]
pub enum Place {
    Unknown,
    Home,
    // In a country, known by its MCC.
    Abroad(u64),
}

// What start gives: where the line is, the PLMN that it is registered to, and the local IP version, 4 or 6.
#[derive(Clone, Copy)]
pub struct Facts {
    pub place: Place,
    pub registered: Option<Plmn>,
    // The number that C hands in, which `facts_of` keeps whatever it is.
    pub version: u64,
}
