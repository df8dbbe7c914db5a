/// Where the keys come from.
#[derive(Clone, Copy, PartialEq, Eq, Debug)]
pub enum Input {
    /// A file or a pipe: where a read gives no byte, the keys have ended.
    Ending,
    /// A terminal at which an operator sits: where a read gives no byte, no key was struck yet.
    Live,
}
