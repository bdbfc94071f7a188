//! Scenarios: the bucket of each task.
use bench_reader::{Task, read_scen};
use grid_cells::Size;
use std::alloc::{AllocError, Global};

fn put_buckets(told: &mut String, tasks: &[Task]) -> Result<(), AllocError> {
    told.push_str("buckets")?;
    for task in tasks {
        let bucket = task.bucket;
        write!(told, " {bucket}")?;
    }
    Ok(())
}

/// The buckets of a scenario's tasks, or why it is none.
pub fn put_tasks(alloc: Global, told: &mut String, text: &[u8]) -> Result<(), AllocError> {
    let Some(size) = Size::new(12, 3) else {
        return Ok(());
    };
    match read_scen(alloc, text, size) {
        Ok(tasks) => {
            let put = put_buckets(told, tasks.items());
            drop(tasks);
            put
        }
        Err(fault) => write!(told, "{fault}"),
    }
}
