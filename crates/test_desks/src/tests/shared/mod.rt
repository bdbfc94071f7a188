//! Planners who share a desk.
mod build;
mod rows;
mod threads;
mod want;
