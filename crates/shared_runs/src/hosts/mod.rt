//! Planners who edit one fleet at once, each at a seat of its own, over one shared desk.
mod comparing;
mod dated;
mod gates;
mod hosting;
mod operating;
mod scribes;
mod sittings;
mod standings;
mod threads;
mod waiting;

pub use hosting::{HostEnd, MOST_HOSTED, host_planners};
