// Nodes gathered to the particles whose stencils they are in, in two halves, between which the host may rewrite deformation gradients. The host lends particles, their regions
// and the nodes as the crates particles and grid say.
#![tactic(auto)]

pub mod grid_to_particle;
pub mod inner;
