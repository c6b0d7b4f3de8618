// What a reduce answers.

// How many points are kept, and the total of the chords between them. Their numbers stand at the front of the list that the caller lent.
#[derive(Clone, Copy, Debug, PartialEq, Eq)]
pub struct Answer<T> {
    pub count: usize,
    pub total: T,
}
