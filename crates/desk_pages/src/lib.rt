//! Pages for a browser: one HTML document that has a scene and its report as texts, and a script
//! that shows them.
//!
//! `pages` puts the parts of a page one behind the other, `courses` the text of a scene, `titles` a
//! text as HTML has it; `specs/Pages.antt` and `specs/SceneText.antt` say the whole of it to the byte.
//! The page's script is `page/page.js`, which `tools/page` puts into the crate `page_parts`.
#![tactic(auto)]

mod courses;
mod pages;
mod titles;

pub use pages::{Page, write_page};
