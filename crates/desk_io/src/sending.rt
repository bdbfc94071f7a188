//! The last answers of a session.
use crate::streams::Outlet;
use std::cell::RefCell;
use std::io::{Error, Result, Write};

/// Sends the last answers. It gives how that went, and why the input could not be read, where it
/// could not.
pub fn send_last<O: Write + Drop>(outlet: &RefCell<Outlet<O>>) -> (Result<()>, Option<Error>) {
    match outlet.try_borrow_mut() {
        Ok(mut outlet) => (outlet.send(), outlet.unread()),
        Err(_) => (Ok(()), None),
    }
}
