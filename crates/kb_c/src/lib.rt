//! The engine as a C library. `include/pafjirn.h` declares these functions for C, and says what C must keep.
//! Each call takes the handle of an engine. A handle that holds none is answered with 2 (`Unknown`).
#![tactic(auto)]

pub mod before_load;
pub mod desk;
pub mod events;
pub mod handle;
pub mod hosted;
pub mod lookups;
pub mod loose;
pub mod reads;

pub use handle::Handle;
