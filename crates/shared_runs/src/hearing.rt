use desk_audit::Gate;
use solver_check::Hearing;

/// A gate that goes along with a drill, and hears nothing.
#[derive(Clone, Copy)]
pub(crate) struct AtGate<'g, G: Gate> {
    pub gate: &'g G,
}

impl<G: Gate> Hearing for AtGate<'_, G> {
    fn begins(&self, script: u32) {
        self.gate.begins(script);
    }

    fn hears(&self, _script: u32, _word: &[u8]) {}
}
