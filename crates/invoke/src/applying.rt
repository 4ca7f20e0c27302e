//! The actions of calls, returns and initialisations, applied to the parts of a machine.

pub(crate) mod calls;
pub(crate) mod initialisation;
