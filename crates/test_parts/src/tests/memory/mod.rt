//! Want of memory: scripts of calls, each of whose growths is refused in turn. The last run of each call
//! meets no refusal, and gives the answers of the script's row.
mod edit_rows;
mod edits;
mod fields;
mod fleet_rows;
mod fleet_tells;
mod fleets;
mod grids;
mod maps;
mod plain;
mod prices;
mod scenarios;
mod scenes;
mod scripts;
mod tasks;
mod told;
mod trials;
