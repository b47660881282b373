// Volumes as they come: converted, listed, rolled back and refused by the top call.
mod copied_block;
mod encoded;
mod going;
mod refused;
mod stops;
mod trials;
