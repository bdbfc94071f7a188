//! The options of the word that judges paths.
use crate::arguments::Argument;
use crate::options::FLAG;

pub(crate) const ONLY: Argument = Argument {
    name: "only",
    help: "List only the conflicts of the kinds that count",
    ..FLAG
};

pub(crate) const JSON: Argument = Argument {
    name: "json",
    help: "Print the verdict as one JSON object",
    ..FLAG
};

pub(crate) const OWN_CELLS: Argument = Argument {
    name: "own-cells",
    help: "Print cells in the order of coordinates that the file of paths has",
    ..FLAG
};

pub(crate) const FLIP: Argument = Argument {
    name: "flip",
    help: "The paths are moves, and up is the next row; without it up is the row before",
    ..FLAG
};
