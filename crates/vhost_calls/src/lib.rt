//! A connection with a vhost-user front end as calls of plain numbers and bytes, as they cross to C.
//! The crate's README.md has the rules.
#![tactic(auto)]

mod calls;
mod channel;
pub mod code;
mod refused;
mod values;

pub use calls::{
    change_config, config, handle, logged, open, refuse, region, reply, running, state, stop,
    wanted,
};
pub use channel::{access_fail, answered, config_change, miss};
pub use refused::{code_of_offer, code_of_refusal};
pub use values::{
    VhostOffer, VhostPages, VhostRegion, VhostRequest, VhostState, VhostVring, VhostWanted,
    offer_of,
};
pub use vhost_user::BackendReqHandler;
