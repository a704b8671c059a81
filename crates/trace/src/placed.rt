// What a record holds, and where it lies in the file.
#[derive(Clone, Copy, Debug, PartialEq, Eq)]
pub struct Placed<T> {
    pub place: usize,
    pub value: T,
}
