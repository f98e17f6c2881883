//! One desk in its three roles, as acceptor, proposer and learner: it works out the plan of a step,
//! makes room for it, and takes it. It stores and sends nothing.

pub mod fault;
pub mod heeding;
pub mod running;

pub use fault::NodeFault;
pub use running::Running;
