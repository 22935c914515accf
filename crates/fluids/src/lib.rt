// Fluids' volumes from the mass around them. The host lends particles, their regions and the nodes as the crates particles and grid say.
#![tactic(auto)]

pub mod fluids_volume;
