//! Paths as the League of Robot Runners and PlanViz write them where robots don't turn.
ghost use Rattle.std.specs.Prelude.{◌≡◌, ◌⊎◌, ◌≤◌, Some, None, length, IfErr, IfOk};
ghost use Rattle.std.specs.Option.{option_map};
ghost use Rattle.serde_json.specs.View.{view};
ghost use Rattle.scene_edits.specs.declared.scenes.TheConstants.{MOST_AGENTS};
ghost use Rattle.path_files.specs.Answers.{IsRead};
ghost use Rattle.path_files.specs.Broken.{broken_in};
ghost use Rattle.path_files.specs.Robots.{by_json, by_members, data_in, object_in};
ghost use Rattle.path_files.specs.declared.faults.PathsFault.TheVariants.{OutOfMemory};

use crate::broken::broken_in;
use crate::faults::PathsFault;
use crate::forms::Form;
use crate::members::{model_fault_in, paths_in, starts_in, team_size};
use crate::paths::SolverPaths;
use serde_json::Value;
use std::alloc::Global;

// What a text in UTF-8 says as JSON.
fn data_in(alloc: Global, text: &[u8]) -> Result<Option<Value>, PathsFault>
    ensures is { IfOk result (λ value. option_map view value ≡ data_in text.now) }
    ensures memory { IfErr result (λ fault. fault ≡ OutOfMemory) }
{
    match Value::from_slice(alloc, text) {
        Ok(value) => Ok(Some(value)),
        Err(why) => {
            if why.is_memory() {
                Err(PathsFault::OutOfMemory)
            } else {
                Ok(None)
            }
        }
    }
}

// The object that the text is.
fn object_in(alloc: Global, text: &[u8]) -> Result<Value, PathsFault>
    ensures ok { IfOk result (λ object. object_in text.now ≡ Some (view object)) }
    ensures err { IfErr result (λ fault. (fault ≡ OutOfMemory) ⊎ ((object_in text.now ≡ None) × (fault ≡ broken_in text.now))) }
{
    if let Some(value) = data_in(alloc, text)? {
        if value.is_object() {
            return Ok(value);
        }
        drop(value);
    }
    Err(broken_in(alloc, text))
}

// What the object spells.
fn by_members(alloc: Global, object: &Value) -> Result<SolverPaths, PathsFault>
    ensures is { IsRead (by_members (view object.now)) result }
    ensures few { IfOk result (λ spelled. length spelled.paths ≤ MOST_AGENTS) }
{
    if let Some(fault) = model_fault_in(object) {
        return Err(fault);
    }
    let agents = team_size(object.get("teamSize"))?;
    let starts = starts_in(alloc, object)?;
    let paths = paths_in(alloc, starts.items(), object)?;
    Ok(SolverPaths {
        form: Form::ByJson,
        starts: Some(starts),
        goals: None,
        agents,
        paths,
    })
}

/// The paths of an object of JSON, each set out from its start.
///
/// # Errors
/// `BadJson`; `TurningRobots` or `OtherModel`; `BadMember` of the size of the team; `BadMember`,
/// `TooManyPaths` or `BadStart` of the starts, and `BadMember`, `TooManyPaths`, `BadAction` or `NoPaths`
/// of the paths; or want of memory.
pub(crate) fn read_json(alloc: Global, text: &[u8]) -> Result<SolverPaths, PathsFault>
    ensures is { IsRead (by_json text.now) result }
    ensures few { IfOk result (λ spelled. length spelled.paths ≤ MOST_AGENTS) }
{
    let object = object_in(alloc, text)?;
    let read = by_members(alloc, &object);
    drop(object);
    read
}
