//! The plan of a component: the needs of each function that its modules import, in the order of an encoder.
//!
//! `plan` makes it from a component's world (`wc_world::ComponentWorld`), `plan_encoder` from an encoder
//! (`wc_encoder::ComponentEncoder`), and `write_plan` prints it. `plan_explained` says which module's function a
//! fault is about.
#![tactic(auto)]

mod calls;
mod encoder;
mod fault;
pub mod laws;
mod lines;
mod lowerings;
mod planner;
mod uses;

pub use encoder::plan_encoder;
pub use fault::{PlanFault, PlanPlace};
pub use lines::write_plan;
pub use planner::{plan, plan_explained};
pub use uses::{Owner, Plan, Use};
