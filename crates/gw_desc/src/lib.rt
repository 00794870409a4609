//! Descriptors of H.248 version 1 in the text encoding, as they are read.
#![tactic(auto)]

mod checks;
mod descriptor;
mod descriptors;
mod fill;
mod laws;
mod properties;
mod services;
mod spans;
mod streams;
mod tails;
mod values;

pub use checks::{check, same_kept};
pub use descriptor::{
    AuditItems, Descriptor, KeptKind, MediaPart, Property, ServiceParm, ServiceValue, Sign,
    StreamPart, Tail,
};
pub use fill::fill_local;
pub use laws::{
    descriptors_are_read, fills_go_step_by_step, kept_texts_have_their_forms, tails_are_read,
};
pub use tails::{optional_group, tail};
pub use values::{
    AuditItem, Mode, is_mode, is_parm, is_service_states, item_of, mode_set_by, service_set_by,
    uint32_of,
};
