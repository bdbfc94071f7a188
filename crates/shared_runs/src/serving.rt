//! In which version of lines the scripts of a drill are served.
ghost use Rattle.std.specs.Prelude.{◌≡◌, ◌||◌};
ghost use Rattle.session_protocol.specs.Answer.{answering_in};
ghost use Rattle.session_protocol.specs.Session.{Serves, is_write_failed};
ghost use Rattle.desk_shared.specs.Windows.{window_counting};
ghost use Rattle.session_protocol.specs.declared.drafts.Session.{Session};
ghost use Rattle.session_protocol.specs.declared.drafts.Session.TheVariants.{Idle};
ghost use Rattle.solver_check.specs.Bounds.{run_bounds};

use desk_report::{Sink, Source};
use desk_shared::Window;
use session_protocol::{LinesVersion, ServeFault, serve, serve_in};
use solver_check::BOUNDS;
use std::alloc::Global;
use std::sync::Wait;
use std::time::Clock;

/// What serves a session over a window.
pub(crate) trait Serving<R: Wait>: Sync {
    ghost use Rattle.session_lines.specs.declared.versions.LinesVersion.{LinesVersion};

    /// The version of its lines.
    ghost version: { Self → LinesVersion };

    /// The same.
    fn version(&self) -> LinesVersion
        ensures { result ≡ version self.now };

    /// Serves the session to its end, or to its fault, within the bounds of a run.
    fn serve<S: Source, W: Sink>(
        &self,
        alloc: Global,
        window: &mut Window<'_, R>,
        reader: &mut S,
        writer: &mut W,
    ) -> Result<u32, ServeFault>
        ensures session { (last : Session) × Serves (answering_in (version self.now) window_counting) run_bounds (S.left reader.old) (S.left reader.new)
            (W.held writer.old) (W.held writer.new) (Idle, window.old) (last, window.new) result }
        ensures broken { W.broken writer.new ≡ (W.broken writer.old || is_write_failed result) };
}

/// Version 1, of which no line waits.
#[derive(Clone, Copy)]
pub(crate) struct First;

impl<R: Wait> Serving<R> for First {
    ghost use Rattle.session_lines.specs.declared.versions.LinesVersion.TheVariants.{One};

    ghost version = { λ _. One };

    fn version(&self) -> LinesVersion {
        LinesVersion::One
    }

    fn serve<S: Source, W: Sink>(
        &self,
        alloc: Global,
        window: &mut Window<'_, R>,
        reader: &mut S,
        writer: &mut W,
    ) -> Result<u32, ServeFault> {
        serve(alloc, window, reader, writer, BOUNDS)
    }
}

/// That version.
#[derive(Clone, Copy)]
pub(crate) struct Spoken {
    pub version: LinesVersion,
}

impl<R: Wait + Clock> Serving<R> for Spoken {
    ghost version = { λ spoken. spoken.version };

    fn version(&self) -> LinesVersion {
        self.version
    }

    fn serve<S: Source, W: Sink>(
        &self,
        alloc: Global,
        window: &mut Window<'_, R>,
        reader: &mut S,
        writer: &mut W,
    ) -> Result<u32, ServeFault> {
        serve_in(alloc, self.version, window, reader, writer, BOUNDS)
    }
}
