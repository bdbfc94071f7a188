//! What only calls can try: lists of calls, how often indexes are built, shared desks by their passes,
//! pieces that run at once, small bounds, writes that fail, refusals and faults that no program meets.
mod bounds;
mod build;
mod calls;
mod chances;
mod differences;
mod drives;
mod droughts;
mod faults;
mod fronts;
mod gates;
mod histories;
mod indexes;
mod refusal_lines;
mod reports;
mod rows;
mod runs;
mod scenes;
mod shared;
mod trials;
