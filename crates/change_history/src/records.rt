/// An element that came to a set, or went from it.
#[derive(Drop)]
pub struct Record<T> {
    pub(crate) item: T,
    pub(crate) came: bool,
}
