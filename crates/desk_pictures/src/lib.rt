//! Pictures of scenes and their reports: one SVG that any browser opens, in which each entry of the
//! report is marked where it stands.
//!
//! `pieces` puts bits of text into a sink, and fills the places of a text with them; nothing takes
//! memory. `marks` has what is promised of a picture, the marks of entries and visits, with `spots`
//! (where a mark stands, and its sign); their titles are the report's lines, which `desk_report` puts;
//! `specs/Marks.antt` says it to the byte. Of all else the contracts say only that some text is put
//! (`Grows`): `ground`, `routes`, `rings`, `movers` with `ways` are under the marks, `legend` with
//! `counts` and `rulers` are beside the map, `styles` has the colours and the signs.
#![tactic(auto)]

mod agents;
mod counts;
mod crosses;
mod frames;
mod ground;
mod legend;
mod marks;
mod movers;
mod pictures;
mod pieces;
mod rings;
mod routes;
mod rulers;
mod sheet;
mod signs;
mod spots;
mod styles;
mod ways;

pub use frames::Frame;
pub use pictures::write_picture;
