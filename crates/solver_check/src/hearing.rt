/// What goes along with the scripts of a drill, from the threads that serve them.
pub trait Hearing {
    /// The script of that number, from 0, begins.
    fn begins(&self, script: u32);

    /// One more line of the script's answers begins with this word, of which no more than
    /// `MOST_HEARD` bytes are told. The lines come in their order.
    fn hears(&self, script: u32, word: &[u8]);
}

/// How many bytes of a line's first word are told.
pub const MOST_HEARD: usize = 16;
