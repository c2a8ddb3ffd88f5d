// Fields as they are read.

// What is read at a place of a text, and the place behind the octet that ends it.
#[derive(Clone, Copy)]
pub struct Field<T> {
    pub value: T,
    pub next: usize,
}
