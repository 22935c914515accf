// The grid update: locks and boundaries. The host lends the nodes as the crate grid says, and gives the colliders' friction and the projection of each cell on each collider.
#![tactic(auto)]

pub mod grid_update;
pub mod inner;
