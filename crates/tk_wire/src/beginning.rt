/// How many records a stream has given, and the place at which it starts.
#[derive(Clone, Copy, Debug, PartialEq, Eq)]
pub struct Beginning {
    pub count: u64,
    pub start: u32,
}
