// The functions that a host in Rust or C links, under their plain names: one for each public function of packing, numeric and cells and for each call of grid,
// scatter, update, gather, fluids, lengths, solver and listing, with its contract.
#![tactic(auto)]

mod answers;
mod bench;
mod floats;
mod fluids_volume;
mod grid_to_particle;
mod grid_update;
mod ids;
mod mls_solver;
mod particle_to_grid;
mod sp_grid;
