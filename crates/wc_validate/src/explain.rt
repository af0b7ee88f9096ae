//! The places of faults of core modules: the first import or export at which a fault's cause is.

pub(crate) mod exports;
pub(crate) mod functions;
pub(crate) mod imports;
pub(crate) mod keys;
pub(crate) mod missing;
