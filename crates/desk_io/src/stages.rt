//! What a run is at, told on a terminal.

/// Tells on standard error what comes next, where that is wanted.
pub fn tell_stage<R: Eprint>(rt: &R, wanted: bool, stage: &str) {
    if wanted {
        let _told = eprintln!(rt; "mapf_desk: {stage}");
    }
}
